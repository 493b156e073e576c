//! A program: declarations, and the body of each goroutine.
ghost use Rattle.std.specs.Prelude.{◌≡◌, ◌<◌, Some, map, slice_get};
ghost use Rattle.race_records.specs.Declarations.{count_of};

use race_records::{Decls, Kind};
use race_requests::RequestList;
use std::alloc::{Allocator, Global};
use std::marker::Model;

/// The most steps that a body can have, its exit counted.
pub const MAX_STEPS: usize = 65_535;

// Definitions cite this number, so it is written down twice.
const _: () = prove!(MAX_STEPS == 65_535);

/// Declarations, and for each goroutine its body: the requests that it makes, one after another.
pub struct Program<A: Allocator = Global> {
    decls: Decls<A>,
    bodies: Vec<RequestList<A>, A>,
}

impl<A: Allocator> Drop for Program<A> {
    fn drop(self) {
        let Program {
            decls: _,
            bodies: _,
        } = self;
    }
}

impl<A: Allocator> Model for Program<A> {
    ghost use Rattle.std.specs.Prelude.{map};
    ghost use Rattle.race_script.specs.Program.{ProgramState, IsProgram};

    ghost Value = { ProgramState };

    ghost view = { λ p. record { decls = p.decls; bodies = map (λ body. body.items) p.bodies.items } };

    ghost invariant = { λ p. IsProgram (record { decls = p.decls; bodies = map (λ body. body.items) p.bodies.items }) };
}

impl<A: Allocator> Program<A> {
    ghost use Rattle.race_script.specs.Program.{IsProgram, ProgramState};

    // The program of these declarations and bodies. Takes no memory.
    pub(crate) fn new(decls: Decls<A>, bodies: Vec<RequestList<A>, A>) -> Program<A>
        requires { IsProgram (record { decls = decls; bodies = map (λ body. body.items) bodies.items }) }
        ensures { result ≡ record { decls = decls; bodies = map (λ body. body.items) bodies.items } }
    {
        Program { decls, bodies }
    }

    /// The declarations, and the places of the requests.
    pub fn decls(&self) -> &Decls<A>
        ensures decls { result.now ≡ self.now.decls }
        ensures program { IsProgram self.now }
    {
        &self.decls
    }

    /// The body of the goroutine.
    pub fn body(&self, goroutine: u32) -> &RequestList<A>
        requires { goroutine < count_of Kind.Goroutine self.now.decls.declarations }
        ensures body { slice_get self.now.bodies goroutine ≡ Some result.now.items }
        ensures program { IsProgram self.now }
    {
        &self.bodies[goroutine as usize]
    }
}
