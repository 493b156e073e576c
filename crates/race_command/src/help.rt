//! What help says.

pub(crate) const ABOUT: &str = "Judges recorded runs of goroutines by The Go Memory Model";

pub(crate) const VERSION: &str =
    "0.1.0 (sources proved with rattle-kit-13f, logic dac8208d650f15bf)";

pub(crate) const AFTER_HELP: &str = "\
'gorace check --help' says what a trace is, with an example, and what the statuses mean;
'gorace run --help' says what a program is. Traces of Go programs are made by gorec:
'gorec run .' in a program's folder records it and judges the trace, and 'gorec help'
says more.";

pub(crate) const CHECK_ABOUT: &str = "Reads a trace from standard input and writes its report";

pub(crate) const CHECK_USAGE: &str = "gorace check [OPTIONS] < TRACE";

pub(crate) const CHECK_HELP: &str = "\
A trace is a text: a header, declarations, and the events of a run in order.
Each event says what was done, then by which goroutine, and ends with its place
in the source; a meet ends with two, the sender's and the receiver's. The header
is 'gotrace 1', or 'gotrace 2' where tries to lock are to be in it.

  gotrace 1
  goroutine w
  var x
  go main w a.go:2
  write main x 1 a.go:3
  read w x 1 a.go:6

Here the write and the read race, for nothing orders them:

  race on x: write by main at a.go:3 (event 2), read by w at a.go:6 (event 3)
  races: 1

Statuses:
  0   clean: legal, and no data race
  66  data races, one line for each variable
  1   an event that breaks a rule of traces; its number, and the rule
  2   not a trace; the line at fault and why
  3   usage, or more events than --plain takes (2,000)
  4   out of memory, or a thread could not be started
  5   reading or writing failed";

pub(crate) const EXPLAIN_ABOUT: &str = "Reads a trace from standard input and explains its report";

pub(crate) const EXPLAIN_USAGE: &str = "gorace explain < TRACE";

pub(crate) const EXPLAIN_HELP: &str = "\
This writes the report of 'gorace check', and after it

  of a line at fault: the line, a mark below the word at fault, and what is
  wanted there;
  of an event that breaks a rule: the event, its line, and why it breaks the rule,
  with the values and the events that this comes from;
  of each race: both accesses with their lines, what each goroutine had locked,
  its last synchronization before, who started it, and what the second access has
  seen of the first one's goroutine;
  of a clean trace: how much of what is declared is used, what isn't, which locks
  are held at the end, and whether an event ends the run.

A line is shown in quotes, of a long one the part around the mark.

Statuses, as those of a check:
  0   clean: legal, and no data race
  66  data races
  1   an event that breaks a rule of traces
  2   not a trace
  3   usage
  4   out of memory
  5   reading or writing failed";

pub(crate) const EDGES_ABOUT: &str =
    "Reads a trace from standard input and lists what synchronizes in it";

pub(crate) const EDGES_USAGE: &str = "gorace edges < TRACE";

pub(crate) const EDGES_HELP: &str = "\
A line for each synchronization edge, and their count:

  edge 1 main 1 w
  edges: 1

says that the start of main's part in event 1 is synchronized before the end of
w's part in event 1. What one goroutine does in order isn't listed.

Statuses:
  0   the edges are listed
  1   an event that breaks a rule of traces; its number, and the rule
  2   not a trace; the line at fault and why
  3   usage, or more events than are taken (2,000)
  4   out of memory
  5   reading or writing failed";

pub(crate) const WITNESS_ABOUT: &str =
    "Reads a trace from standard input and shows the race on a variable";

pub(crate) const WITNESS_USAGE: &str = "gorace witness VAR < TRACE";

pub(crate) const WITNESS_HELP: &str = "\
A check names two accesses of a variable that race. This writes all accesses of
the trace in an order in which these two are neighbours, the second before the
first, and their count. Of the trace of 'gorace check --help' it shows on x

  3 read w x
  2 write main x
  witness: 2 accesses

An order shows a race if each access comes after all that happen before it, by
the edges that 'gorace edges' lists and by what each goroutine does in order.
First come the accesses that happen before either of the two, then the two, then
all others. A run of the program need not take this order, and in it reads after
the two may find other values.

Statuses:
  0   the accesses are written
  14  the name is that of no variable with a race
  1   an event that breaks a rule of traces; its number, and the rule
  2   not a trace; the line at fault and why
  3   usage
  4   out of memory
  5   reading or writing failed";

pub(crate) const DRAW_ABOUT: &str = "Reads a trace from standard input and draws it";

pub(crate) const DRAW_USAGE: &str = "gorace draw [VAR] [--svg] < TRACE";

pub(crate) const DRAW_HELP: &str = "\
A check names two accesses of a variable that race. This draws why nothing
orders them. Of the trace of 'gorace check --help' it draws

  races: 1
  (... is the order that is missing, === a path from the last event seen, --- another edge)

  race on x: write by main at a.go:3 (event 2), read by w at a.go:6 (event 3)

   main
   |   w
   o==>o        1  go main w a.go:2
   W...|....    2  write main x 1 a.go:3
   |   R<...    3  read w x 1 a.go:6

  main's write is event 2, and w has seen main up to event 1: go main w a.go:2

A goroutine goes down in its column: that of the first access, that of the
second, and others that an arrow leaves or enters. W and R are the two, and the
dotted line is the order that is missing. The other lines are edges, as 'gorace
edges' lists them: by double strokes the way by which the second access has seen
something of the first one's goroutine, and by single ones the next edge that
leaves that goroutine after its access, and the starts of the two.

Without VAR each variable's race is drawn, and of a clean trace of at most 60
events a chart: a row for each event, and the edges but those that one or two
others lead along. With --svg the same is written as an SVG document, which a browser
shows. Where there is nothing to draw one line says so, also with --svg. Of
more than 2,000 events no edge is drawn.

Statuses:
  0   it is drawn; or one line says that a clean trace has no chart
  14  the name is that of no variable with a race
  1   an event that breaks a rule of traces; its number, and the rule
  2   not a trace; the line at fault and why
  3   usage
  4   out of memory
  5   reading or writing failed";

pub(crate) const PREDICT_ABOUT: &str =
    "Reads a trace from standard input and finds races of other runs";

pub(crate) const PREDICT_USAGE: &str = "gorace predict [VAR] [--turned] [--most N] < TRACE";

pub(crate) const PREDICT_HELP: &str = "\
A run may be clean by luck: here main locks first, and so its write is ordered
before w's read.

  gotrace 1
  goroutine w
  mutex m
  var x
  go main w a.go:3
  write main x 1 a.go:4
  lock main m a.go:5
  unlock main m a.go:6
  lock w m a.go:9
  unlock w m a.go:10
  read w x 1 a.go:11

Had w locked first, nothing would order them. After the report of a check this
finds:

  clean: 7 events, 2 accesses
  predicted race on x: write by main at a.go:4 (event 2), read by w at a.go:11 (event 7)
  predicted: 1

With VAR it writes the trace of such a run, which ends with the two accesses:

  go main w a.go:3
  lock w m a.go:9
  unlock w m a.go:10
  write main x 1 a.go:4
  read w x 1 a.go:11

'gorace check' finds a race on VAR in it, and 'gorace draw' draws it. In that run
each goroutine does what it did in the recorded one, up to some point, with the
same values; of the last two events a read may find another value. A program
that knows more than its trace, as by a clock, may have no such run.

Not all such races are found. Without --turned what is done of the recorded
events stays in the recorded order. Where the search takes too many steps, a line
'not searched: N variables' says how many variables are left.

Statuses:
  0   no race and none predicted; with VAR: the trace of the other run is written
  66  the trace has races, or some are predicted
  14  no race on the variable is predicted, or the name is that of no variable
  1   an event that breaks a rule of traces; its number, and the rule
  2   not a trace; the line at fault and why
  3   usage
  4   out of memory
  5   reading or writing failed";

pub(crate) const RUN_ABOUT: &str =
    "Reads a program from standard input, runs it, and writes the trace";

pub(crate) const RUN_USAGE: &str = "gorace run [OPTIONS] < PROGRAM";

pub(crate) const RUN_HELP: &str = "\
A program is a text: a header, declarations, and for main and each goroutine a
body of steps, of which the last is its exit. Each step ends with its place. The
header is 'goprogram 1', or 'goprogram 2' where it has tries to lock.

  goprogram 1
  goroutine w
  chan c 0
  var x
  body main
  go w m:1
  recv c m:2
  read x m:3
  exit m:4
  body w
  write x 8 w:1
  send c 1 w:2
  exit w:3

A goroutine goes on to its next step as soon as it has done one. Where several
could do their steps next, a pick says which. They are listed in the order in
which they came to their steps: a meet where its sender is, a try that could
succeed twice, its success first. A pick is a number modulo their count. Each
event uses up a pick; after the last one they are 0.
With --picks 0,0,0,1 main reads before w exits; with --picks 0 w exits first.

Without --picks workers run the goroutines, each on a thread, and the picks come
from the --seed. One worker gives the same run for the same seed; with several
no two runs need be alike, since it matters which of them comes first.

'gorace race' runs a program in the same way, and judges the run.

Statuses:
  0   main returned
  10  a goroutine failed, as by a close of a closed channel
  11  deadlock: each goroutine waits, and none can go on
  12  the limit is reached
  13  a goroutine attempted something impossible, as to start another twice
  2   not a program; the line at fault and why
  3   usage
  4   out of memory, or a thread could not be started
  5   reading or writing failed
  15  the run could not be recorded, or what was recorded isn't a run of the program";

pub(crate) const RACE_ABOUT: &str =
    "Reads a program from standard input, runs it, and writes the report of the run";

pub(crate) const RACE_USAGE: &str = "gorace race [OPTIONS] < PROGRAM";

pub(crate) const RACE_HELP: &str = "\
Runs the program as 'gorace run' does, and judges the run as 'gorace check' does;
'gorace run --help' says what a program is, and what picks are. After the report
comes how the run ended.

  goprogram 1
  goroutine w
  var x
  body main
  go w m:1
  write x 1 m:2
  exit m:3
  body w
  read x w:1
  exit w:2

With --picks 0 the write and the read race, for nothing orders them:

  race on x: write by main at m:2 (event 2), read by w at w:1 (event 3)
  races: 1
  end: main

The last line is 'end: main', 'end: fault', 'end: deadlock', 'end: limit', or
'end: bad NAME' of a goroutine that asked what can't be. One run is judged:
another, by other picks or another seed, may have races that this one hasn't:
here main exits before w reads by the default seed, and the run is clean.

Statuses:
  66  data races, however the run ended
  0   no data race, and main returned
  10  none, and a goroutine failed, as by a close of a closed channel
  11  none, and deadlock: each goroutine waits, and none can go on
  12  none, and the limit is reached
  13  none, and a goroutine asked what can't be, as to start another a second time
  2   not a program; the line at fault and why
  3   usage, or more events than --plain takes (2,000)
  4   out of memory, or a thread could not be started
  5   reading or writing failed
  15  the run could not be recorded, or what was recorded isn't a run of the program";

pub(crate) const EXPLORE_ABOUT: &str =
    "Reads a program from standard input, and judges all its runs";

pub(crate) const EXPLORE_USAGE: &str = "gorace explore [OPTIONS] < PROGRAM";

pub(crate) const EXPLORE_HELP: &str = "\
Runs the program by one list of picks after another, until each run was looked
at, and judges each as 'gorace race' does; 'gorace run --help' says what a
program is, and what picks are. Of the program of 'gorace race --help' it writes

  race on x in 5 of 6 runs: write by main at m:2, read by w at w:1; with --picks 0
  runs: 6, clean: 1, races: 5, deadlocks: 0, faults: 0

A line for each variable with a race in some run tells in how many it has one,
the race of the first of them, and its picks: 'gorace race' shows that run by
them. Lines for ends follow, where main didn't return in some run: 'fault' with
who failed, 'deadlock' with who waits, 'limit', and 'bad request' with who asked
what can't be. Runs that ended in the same way, of the same goroutines at the
same places, have one line.

Where there are more runs than --runs, a line 'stopped after N runs' tells so,
and nothing is said of the others.

With --reduce runs are skipped that differ from others only in the order of
independent steps, and a line tells how many. Steps are independent where no
goroutine takes part in both, and they aren't on one variable, channel, lock or
once, or are both reads. The same variables have a race, and runs end in the
same ways, but the counts are of those that were judged.

Statuses:
  66  some run has data races
  0   no run has a race, and main returns in each
  10  none has a race, and in one a goroutine failed
  11  no race or failure, and in one each goroutine waits, and none can go on
  12  none of these, and in one the limit is reached, or there are more runs
  13  none of these, and in one a goroutine asked what can't be
  2   not a program; the line at fault and why
  3   usage
  4   memory was refused
  5   reading or writing failed
  15  a run could not be recorded, or what was recorded isn't a run of the program";
