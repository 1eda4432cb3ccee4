// The pages of help.

pub(crate) const COMMANDS: &str = "usage: tps [-C FOLDER] COMMAND [FILE]

  check              tells of each process of a text whether it can get stuck
  expand             writes out what follows a choice, in each of its ways
  init [OPTIONS]     makes the files for the operations of a scenario
  run [--workers N]  runs the processes of a scenario to their ends
  session            answers the lines behind a scenario
  serve              answers each line before it reads the next, for a driver
  restart            completes what a stop left unfinished
  show               prints the report of what has happened so far
  replay             prints what the serial list of the files makes of the books
  verify             tests whether a report's steps lead to its serial list
  audit [--history]  tests whether a log can be reduced wherever it is cut off
  gen NUMBER COUNT   prints a scenario to try the program with
  bulk NUMBER COUNT  makes the files and runs such a scenario on them
  help [COMMAND]     prints this page, or the page of a command
  version            prints the version

A command reads FILE or standard input, and works on the files tps.0 to tps.8
of FOLDER or the current folder. The last line and the exit status tell how it
went: 14 another program has the folder, 15 you may not open a file, 16 it is
no file, 17 it is not there.
";

pub(crate) const CHECK: &str = "usage: tps check [FILE | < PROCESSES]

Reads a process text, and prints a line for each process:
  NAME: well-formed                  it ends on a whole path or in nothing
  NAME: stuck at PATH after OUTCOMES it has no way back there and none on
  NAME: unreachable PATH             nothing falls back to that alternative

exit status: 0 all are well-formed, 3 one is not, 2 the text has a fault,
4 a limit is passed
";

pub(crate) const EXPAND: &str = "usage: tps expand [FILE | < PROCESSES]

Reads a process text in which 'then' may stand behind the 'done' of a choice,
and steps behind that, and prints the text without it: each way of the choice
has the steps at its end. The copies of a step are called STEP_2, STEP_3 ..

exit status: 0 printed, 2 the text has a fault, 4 a limit is passed, of the
text or of what is to be written
";

pub(crate) const INIT: &str = "usage: tps init [--values] [--strict] [FILE | < SCENARIO]

Makes the files tps.0 to tps.8 of the current folder for the operations and
conflicts of a scenario, and prints 'created'. Its processes are not read.
Files that have a byte are left alone. With --values, two operations whose
order can matter to the books have to be in conflict. With --strict its
processes are read too, and what is warned of else is refused: 'warned N'.

exit status: 0 made, 2 the scenario has a fault or leaves out such a conflict,
3 it is warned of or a process is not well-formed, 4 a limit is passed, 6 a
file is not empty
";

pub(crate) const RUN: &str = "usage: tps run [--workers N] [FILE | < SCENARIO]

Starts each process of a scenario once, works until all have ended, with N
workers at a time (1 to 16, else 1), and prints the report. The files have to
be made by 'tps init' first, with the same operations and conflicts.

exit status: 0 all have ended, 2 the scenario has a fault or is not that of the
files, 3 a process is not well-formed, 4 a limit is passed, 5 a process of the
files is unfinished, 6 or 7 the files are damaged, 11 tries are used up
";

pub(crate) const SESSION: &str = "usage: tps session [FILE | < INPUT]

Reads a scenario, a line '%%' and then event lines, and answers these:
  start NAME    admit I    next    finish N done    finish N refused
  queue N done    queue N refused    flush    abort I    show    stop
The files have to be made by 'tps init' first.

exit status: 0 each line was answered, 2 the scenario or a line has a fault,
3 a process is not well-formed, 5 a process of the files is unfinished
";

pub(crate) const SERVE: &str = "usage: tps serve

Reads a scenario and a line '%%', prints 'ready N', and then answers each line
of a driver before it reads the next. What it answered is in the files.
Processes that the files have unfinished begin to complete.

exit status: 0 the input ended or said 'stop', 2 the scenario has a fault or is
not that of the files, 8 a read failed, 10 the disk failed
";

pub(crate) const RESTART: &str = "usage: tps restart

Completes each process that the files have unfinished, and prints the report.
It may be stopped at any moment and called again.

exit status: 0 none is unfinished, 6 or 7 the files are damaged, 10 the disk
failed, 11 tries are used up (call it again)
";

pub(crate) const SHOW: &str = "usage: tps show

Prints the report of what has happened so far. It changes nothing.

exit status: 0 printed, 6 the files are damaged or were not made, 10 the disk
failed
";

pub(crate) const REPLAY: &str = "usage: tps replay

Executes the serial list of the report on empty books, one process after
another, and prints each step with the value that it found and then the values
that are left. They are those of the history itself. It changes nothing.

exit status: 0 printed, 2 the conflicts leave out two operations whose order can
matter to the books, 5 a process is unfinished, 6 the files are damaged or were
not made, 10 the disk failed
";

pub(crate) const VERIFY: &str = "usage: tps verify [FILE | < REPORT]

Applies the printed steps of a report to its history, and prints 'accepted'
where they lead to its serial list. It reads no file.

exit status: 0 accepted, 2 a line has no form, 12 a step, a place or the list
is wrong
";

pub(crate) const AUDIT: &str = "usage: tps audit [--history] [FILE | < INPUT]

Reads a scenario, a line '%%' and then a log of what another scheduler did, in
lines 'start NAME', 'do I.STEP', 'undo I.STEP' and 'end I'. It prints the serial
list and the values that it leaves where each beginning of the log can be
reduced, and else what is left of the least beginning that can't. It reads no
file.
With --history the input is a scenario alone, and the log is the history of the
files. It first says whether the conflicts of the scenario allow each event:
'legal', or 'not legal at N rule R' and the first event that they don't.

exit status: 0 it can be reduced, 2 the scenario or a line has a fault, or the
log leaves the order of a process, 3 a process is not well-formed, 4 a limit is
passed, 6 the files are damaged or were not made, 10 the disk failed, 12 it
can't be reduced
";

pub(crate) const GEN: &str = "usage: tps gen NUMBER COUNT

Prints a scenario of COUNT processes (1 to 256) that are drawn by NUMBER, a
whole number below 2^64. The same numbers give the same text.

exit status: 0 printed
";

pub(crate) const BULK: &str = "usage: tps bulk NUMBER COUNT

Makes the files for the scenario that 'tps gen NUMBER COUNT' prints, runs its
processes, and prints a line of what came of them in numbers.

exit status: 0 all have ended, 6 a file is not empty, 11 tries are used up
";

pub(crate) const HELP: &str = "usage: tps help [COMMAND]

Prints what commands there are, or the page of one.

exit status: 0 printed
";

pub(crate) const VERSION: &str = "usage: tps version

Prints the name and the version of the program.

exit status: 0 printed
";
