//! What is printed of the runs of a program.
ghost use Rattle.std.specs.Prelude.{◌≡◌, ◌++◌, ◌-◌, codes};
ghost use Rattle.std.specs.List.{flat_map};
ghost use Rattle.race_records.specs.Page.{Printing};
ghost use Rattle.race_text.specs.Output.{Writes};
ghost use Rattle.race_text.specs.Text as names;
ghost use Rattle.race_tool.specs.Explore as spec;

use itoa::Buffer;
use race_explore::{BadEnd, Explored, RacyVariable, Standing};
use race_hub::End;
use race_records::{Decls, Kind, Named, Page, Sink, WriteFault};
use race_verdict::{ReportedAccess, ReportedRace};
use std::alloc::Allocator;
use std::io::Write;

/// Writes a line for each variable with a race and for each end other than main's return, whether there are more runs,
/// how many were skipped, and the counts.
pub(crate) fn write_explored<W: Write, A: Allocator, B: Allocator>(
    decls: &Decls<A>,
    explored: &Explored<B>,
    sink: &mut Sink<W>,
) -> Result<(), WriteFault>
    ensures { Writes W.contents result sink.old sink.new (spec.runs_text decls.now explored.now) }
{
    let mut page = Page::new();
    match print_explored(&mut page, sink, decls, explored) {
        Ok(()) => page.flush(sink),
        Err(fault) => Err(fault),
    }
}

fn print_explored<W: Write, A: Allocator, B: Allocator>(
    page: &mut Page,
    sink: &mut Sink<W>,
    decls: &Decls<A>,
    explored: &Explored<B>,
) -> Result<(), WriteFault>
    ensures { Printing W.contents result sink.old sink.new page.old page.new (spec.runs_text decls.now explored.now) }
{
    match print_racy_variables(page, sink, decls, explored.racy.as_slice(), explored.runs) {
        Ok(()) => print_ends_and_totals(page, sink, decls, explored),
        Err(fault) => Err(fault),
    }
}

fn print_ends_and_totals<W: Write, A: Allocator, B: Allocator>(
    page: &mut Page,
    sink: &mut Sink<W>,
    decls: &Decls<A>,
    explored: &Explored<B>,
) -> Result<(), WriteFault>
    ensures { Printing W.contents result sink.old sink.new page.old page.new
        (flat_map (spec.bad_line decls.now explored.now.runs) explored.now.bad.items ++ spec.totals_text explored.now) }
{
    match print_bad_ends(page, sink, decls, explored.bad.as_slice(), explored.runs) {
        Ok(()) => print_totals(page, sink, explored),
        Err(fault) => Err(fault),
    }
}

fn print_racy_variables<W: Write, A: Allocator, B: Allocator>(
    page: &mut Page,
    sink: &mut Sink<W>,
    decls: &Decls<A>,
    racy: &[RacyVariable<B>],
    all: u64,
) -> Result<(), WriteFault>
    ensures { Printing W.contents result sink.old sink.new page.old page.new
        (flat_map (spec.racy_line decls.now all) racy.now) }
{
    for variable in racy {
        if let Err(fault) = print_racy(page, sink, decls, variable, all) {
            return Err(fault);
        }
    }
    Ok(())
}

// Prints the line of a variable with a race.
fn print_racy<W: Write, A: Allocator, B: Allocator>(
    page: &mut Page,
    sink: &mut Sink<W>,
    decls: &Decls<A>,
    variable: &RacyVariable<B>,
    all: u64,
) -> Result<(), WriteFault>
    ensures { Printing W.contents result sink.old sink.new page.old page.new
        (spec.racy_line decls.now all variable.now) }
{
    let name = var_name(decls, variable.race.var);
    match print_how_often(page, sink, b"race on ", name, variable.runs, all) {
        Ok(()) => print_race(page, sink, decls, &variable.race, variable.picks.as_slice()),
        Err(fault) => Err(fault),
    }
}

// Prints both accesses of a race, and the picks of its run.
fn print_race<W: Write, A: Allocator>(
    page: &mut Page,
    sink: &mut Sink<W>,
    decls: &Decls<A>,
    race: &ReportedRace,
    picks: &[u64],
) -> Result<(), WriteFault>
    ensures { Printing W.contents result sink.old sink.new page.old page.new
        (spec.access_text decls.now (codes ": ") race.now.first
        ++ (spec.access_text decls.now (codes ", ") race.now.second ++ spec.picks_text picks.now)) }
{
    match print_access(page, sink, decls, b": ", &race.first) {
        Ok(()) => print_second(page, sink, decls, &race.second, picks),
        Err(fault) => Err(fault),
    }
}

// Prints the second access of a race, and the picks of its run.
fn print_second<W: Write, A: Allocator>(
    page: &mut Page,
    sink: &mut Sink<W>,
    decls: &Decls<A>,
    second: &ReportedAccess,
    picks: &[u64],
) -> Result<(), WriteFault>
    ensures { Printing W.contents result sink.old sink.new page.old page.new
        (spec.access_text decls.now (codes ", ") second.now ++ spec.picks_text picks.now) }
{
    match print_access(page, sink, decls, b", ", second) {
        Ok(()) => print_picks(page, sink, picks),
        Err(fault) => Err(fault),
    }
}

fn print_access<W: Write, A: Allocator>(
    page: &mut Page,
    sink: &mut Sink<W>,
    decls: &Decls<A>,
    mark: &[u8],
    access: &ReportedAccess,
) -> Result<(), WriteFault>
    ensures { Printing W.contents result sink.old sink.new page.old page.new
        (spec.access_text decls.now mark.now access.now) }
{
    match page.put(sink, mark) {
        Ok(()) => print_place(
            page,
            sink,
            decls,
            access_words(access.write),
            access.who,
            access.place,
        ),
        Err(fault) => Err(fault),
    }
}

fn access_words(write: bool) -> &'static [u8]
    ensures { result.now ≡ spec.access_words write }
{
    if write { b"write by " } else { b"read by " }
}

fn print_bad_ends<W: Write, A: Allocator, B: Allocator>(
    page: &mut Page,
    sink: &mut Sink<W>,
    decls: &Decls<A>,
    ends: &[BadEnd<B>],
    all: u64,
) -> Result<(), WriteFault>
    ensures { Printing W.contents result sink.old sink.new page.old page.new
        (flat_map (spec.bad_line decls.now all) ends.now) }
{
    for bad in ends {
        if let Err(fault) = print_bad(page, sink, decls, bad, all) {
            return Err(fault);
        }
    }
    Ok(())
}

// Prints the line of runs that ended in the same way.
fn print_bad<W: Write, A: Allocator, B: Allocator>(
    page: &mut Page,
    sink: &mut Sink<W>,
    decls: &Decls<A>,
    bad: &BadEnd<B>,
    all: u64,
) -> Result<(), WriteFault>
    ensures { Printing W.contents result sink.old sink.new page.old page.new (spec.bad_line decls.now all bad.now) }
{
    match print_how_often(page, sink, end_words(bad.end), b"", bad.runs, all) {
        Ok(()) => print_end(
            page,
            sink,
            decls,
            bad.standing.as_slice(),
            bad.picks.as_slice(),
        ),
        Err(fault) => Err(fault),
    }
}

fn end_words(end: End) -> &'static [u8]
    ensures { result.now ≡ spec.end_words end }
{
    match end {
        End::Main => b"end",
        End::Fault => b"fault",
        End::Deadlock => b"deadlock",
        End::Limit => b"limit",
        End::Bad(_) => b"bad request",
    }
}

// Prints who stands where at an end, and the picks of its run.
fn print_end<W: Write, A: Allocator>(
    page: &mut Page,
    sink: &mut Sink<W>,
    decls: &Decls<A>,
    standing: &[Standing],
    picks: &[u64],
) -> Result<(), WriteFault>
    ensures { Printing W.contents result sink.old sink.new page.old page.new
        (spec.all_standing decls.now standing.now ++ spec.picks_text picks.now) }
{
    match print_all_standing(page, sink, decls, standing) {
        Ok(()) => print_picks(page, sink, picks),
        Err(fault) => Err(fault),
    }
}

fn print_all_standing<W: Write, A: Allocator>(
    page: &mut Page,
    sink: &mut Sink<W>,
    decls: &Decls<A>,
    standing: &[Standing],
) -> Result<(), WriteFault>
    ensures { Printing W.contents result sink.old sink.new page.old page.new
        (spec.all_standing decls.now standing.now) }
{
    let mut mark = b": ".as_slice();
    for one in standing {
        if let Err(fault) = print_place(page, sink, decls, mark, one.who, one.place) {
            return Err(fault);
        }
        mark = b", ".as_slice();
    }
    Ok(())
}

// Prints behind these words a goroutine at its place.
fn print_place<W: Write, A: Allocator>(
    page: &mut Page,
    sink: &mut Sink<W>,
    decls: &Decls<A>,
    words: &[u8],
    who: u32,
    place: u32,
) -> Result<(), WriteFault>
    ensures { Printing W.contents result sink.old sink.new page.old page.new
        (spec.place_of decls.now words.now who place) }
{
    let parts = [
        words,
        goroutine_name(decls, who),
        b" at ".as_slice(),
        place_text(decls, place),
    ];
    page.put_all(sink, &parts)
}

// What a run has named is declared. The three below test it all the same, since no contract of the runs says so.

fn var_name<A: Allocator>(decls: &Decls<A>, var: u32) -> &[u8]
    ensures { result.now ≡ names.var_name decls.now.declarations var }
{
    if var < decls.count(Kind::Var) {
        return decls.name(Named::Var(var)).as_bytes();
    }
    b""
}

fn goroutine_name<A: Allocator>(decls: &Decls<A>, who: u32) -> &[u8]
    ensures { result.now ≡ names.goroutine_name decls.now.declarations who }
{
    if who < decls.count(Kind::Goroutine) {
        return decls.name(Named::Goroutine(who)).as_bytes();
    }
    b""
}

fn place_text<A: Allocator>(decls: &Decls<A>, place: u32) -> &[u8]
    ensures { result.now ≡ names.place_text decls.now.places place }
{
    if place < decls.place_count() {
        return decls.place_text(place).as_bytes();
    }
    b""
}

// Prints of what, and in how many of all runs.
fn print_how_often<W: Write>(
    page: &mut Page,
    sink: &mut Sink<W>,
    what: &[u8],
    whose: &[u8],
    runs: u64,
    all: u64,
) -> Result<(), WriteFault>
    ensures { Printing W.contents result sink.old sink.new page.old page.new
        (spec.how_often what.now whose.now runs all) }
{
    let mut runs_number = Buffer::new();
    let mut all_number = Buffer::new();
    let parts = [
        what,
        whose,
        b" in ".as_slice(),
        runs_number.format(runs).as_bytes(),
        b" of ".as_slice(),
        all_number.format(all).as_bytes(),
        b" runs".as_slice(),
    ];
    page.put_all(sink, &parts)
}

// Prints the picks of a run, at the end of a line.
fn print_picks<W: Write>(
    page: &mut Page,
    sink: &mut Sink<W>,
    picks: &[u64],
) -> Result<(), WriteFault>
    ensures { Printing W.contents result sink.old sink.new page.old page.new (spec.picks_text picks.now) }
{
    if picks.is_empty() {
        // Each pick is 0.
        return page.put(sink, b"; with --picks 0\n");
    }
    match print_all_picks(page, sink, picks) {
        Ok(()) => page.put(sink, b"\n"),
        Err(fault) => Err(fault),
    }
}

fn print_all_picks<W: Write>(
    page: &mut Page,
    sink: &mut Sink<W>,
    picks: &[u64],
) -> Result<(), WriteFault>
    ensures { Printing W.contents result sink.old sink.new page.old page.new
        (spec.listed spec.pick_text (codes "; with --picks ") (codes ",") picks.now) }
{
    let mut mark = b"; with --picks ".as_slice();
    for pick in picks {
        if let Err(fault) = print_pick(page, sink, mark, *pick) {
            return Err(fault);
        }
        mark = b",".as_slice();
    }
    Ok(())
}

fn print_pick<W: Write>(
    page: &mut Page,
    sink: &mut Sink<W>,
    mark: &[u8],
    pick: u64,
) -> Result<(), WriteFault>
    ensures { Printing W.contents result sink.old sink.new page.old page.new (spec.pick_text mark.now pick) }
{
    let mut number = Buffer::new();
    let parts = [mark, number.format(pick).as_bytes()];
    page.put_all(sink, &parts)
}

// Prints whether there are more runs, how many were skipped, and the counts.
fn print_totals<W: Write, A: Allocator>(
    page: &mut Page,
    sink: &mut Sink<W>,
    explored: &Explored<A>,
) -> Result<(), WriteFault>
    ensures { Printing W.contents result sink.old sink.new page.old page.new (spec.totals_text explored.now) }
{
    match print_stopped(page, sink, explored.whole, explored.made) {
        Ok(()) => print_skipped_and_counts(page, sink, explored),
        Err(fault) => Err(fault),
    }
}

// Prints how many runs were skipped, and the counts.
fn print_skipped_and_counts<W: Write, A: Allocator>(
    page: &mut Page,
    sink: &mut Sink<W>,
    explored: &Explored<A>,
) -> Result<(), WriteFault>
    ensures { Printing W.contents result sink.old sink.new page.old page.new
        (spec.skipped_line (explored.now.made - explored.now.runs) ++ spec.counts_line explored.now) }
{
    match print_skipped(page, sink, explored.skipped()) {
        Ok(()) => print_counts(page, sink, explored),
        Err(fault) => Err(fault),
    }
}

fn print_skipped<W: Write>(
    page: &mut Page,
    sink: &mut Sink<W>,
    skipped: u64,
) -> Result<(), WriteFault>
    ensures { Printing W.contents result sink.old sink.new page.old page.new (spec.skipped_line skipped) }
{
    if skipped == 0 {
        return Ok(());
    }
    let mut number = Buffer::new();
    let parts = [
        b"skipped: ".as_slice(),
        number.format(skipped).as_bytes(),
        b" runs that differ from others only in the order of independent steps\n".as_slice(),
    ];
    page.put_all(sink, &parts)
}

fn print_stopped<W: Write>(
    page: &mut Page,
    sink: &mut Sink<W>,
    whole: bool,
    made: u64,
) -> Result<(), WriteFault>
    ensures { Printing W.contents result sink.old sink.new page.old page.new (spec.stopped_line whole made) }
{
    if whole {
        return Ok(());
    }
    let mut number = Buffer::new();
    let parts = [
        b"stopped after ".as_slice(),
        number.format(made).as_bytes(),
        b" runs\n".as_slice(),
    ];
    page.put_all(sink, &parts)
}

// Prints how many runs there are, and of each kind.
fn print_counts<W: Write, A: Allocator>(
    page: &mut Page,
    sink: &mut Sink<W>,
    explored: &Explored<A>,
) -> Result<(), WriteFault>
    ensures { Printing W.contents result sink.old sink.new page.old page.new (spec.counts_line explored.now) }
{
    let mut runs = Buffer::new();
    let mut clean = Buffer::new();
    let mut races = Buffer::new();
    let mut deadlocks = Buffer::new();
    let mut faults = Buffer::new();
    let parts = [
        b"runs: ".as_slice(),
        runs.format(explored.runs).as_bytes(),
        b", clean: ".as_slice(),
        clean.format(explored.clean).as_bytes(),
        b", races: ".as_slice(),
        races.format(explored.races).as_bytes(),
        b", deadlocks: ".as_slice(),
        deadlocks.format(explored.deadlocks).as_bytes(),
        b", faults: ".as_slice(),
        faults.format(explored.faults).as_bytes(),
        b"\n".as_slice(),
    ];
    page.put_all(sink, &parts)
}
