//! What the help of each command says last; `command_line` reads it.

/// What `stickd check --help` says last.
pub(crate) const CHECK_HELP: &str = "\
Prints 'valid: T tables, R rules'; or the first fault with the number of its line, as
'stickd: line 3: C6 second table or name' on standard error, with status 1. Read past,
with a warning each on standard error, are sections global and defaults, lines that
begin with option, timeout, balance, maxconn or log, and words behind a server's address.
With --all each fault has such a line. A line with a fault counts as empty for what is
read behind it, so a fault may follow from another: mend the first ones first.
With --haproxy it says what 'stickd adopt' loses of FILE, and checks what that makes of it;
the status is 3 where what is served changes.
With --load SAVED it also says which lines of that file have no table, datum or place, with
status 1, or 'SAVED fits'.";

/// What `stickd adopt --help` says last.
pub(crate) const ADOPT_HELP: &str = "\
Writes to standard output the configuration that stickd runs in place of FILE: its lines,
in order, each as it is, rewritten, or left out as a comment with the reason. The first
line is the command line, as a comment. Standard error says what became of each line:
  kept
  rewritten: LINE
  lost without harm: REASON (with --verbose; else one line has the numbers of all)
  rewritten, with a change of what is served: REASON
  lost with a change of what is served: REASON
and then how many they are, what becomes of limits, and how to run what was written.
The status is 0 where what is served is the same, and 1 where FILE can't be read, or has
no such frontend. It is 3 where what is served changes, and nothing is written then
without --anyway.";

/// What `stickd ctl --help` says last.
pub(crate) const CTL_HELP: &str = "\
The words are sent as one line of commands, with blanks between them. 'stickd replay
--help' lists the commands; ';' in a word of its own, or quoted, parts several. The
answers are written to standard output as they come. With --json a table is an object
with its name, type, size, used and entries, and another answer {\"answer\": \"TEXT\"}.
With --watch, on a terminal, '* ' stands before each line that wasn't there the last time,
but for what is left of a life. As many lines are shown as LINES and COLUMNS leave room for.
'help' says what the socket answers, and what the other one does.
The status is 1 where a command did nothing, or nobody answers at PATH.
  stickd ctl --socket /run/stickd.sock show table www data.conn_cur gt 10
'save' and the names of tables, or none for all, write what they hold, as --load reads it:
  stickd ctl --socket /run/stickd.sock save --to tables.saved
FILE is written anew beside its place, and takes it once it is whole. Where PATH is the stats socket, they keep which entry goes first where a table is full.
'export', the name of a table and filters as those of 'show table' write its entries as
FORM: 'csv' (RFC 4180); 'json', as --json; or sets of its addresses, which stay there for
the time that their entries have left: 'nft' for 'nft -f', 'ipset' for 'ipset restore'.
They are emptied first, and drop no packet by themselves:
  stickd ctl --socket /run/stickd.sock export www data.gpc0 gt 0 --as nft | nft -f -
On standard error it says how many keys are no addresses, and were left out.";

/// What `stickd top --help` says last.
pub(crate) const TOP_HELP: &str = "\
Shows the entries of a table with the greatest numbers, in falling order: key, use (its
connections), exp (the seconds until it expires) and what the table stores. On a terminal
they are shown again each second, as many and as wide as LINES and COLUMNS say [24 and 80
without them]; else once. The status is 1 where nobody answers at PATH, or there is no such
table or number.";

/// What `stickd replay --help` says last.
pub(crate) const REPLAY_HELP: &str = "\
Each line is a moment in ms and what is done at it:
  0 open 1 10.0.0.1 40001     connection 1 opens, from an address and port
  5 cmd show table t          commands, parted by ';'
  9 close 1 420 1337          it closes, after so many bytes in and out
The commands are:
  show table                         the size of each table, and how many entries it has
  show table T                       the same of table T, and its entries
  show table T data.X OP V           its entries whose X is eq, ne, le, ge, lt or gt V
  show table T key K                 its entry of a key
  set table T key K [data.X V]..     makes that entry, or sets its data
  clear table T                      removes the entries that no connection holds
  clear table T data.X OP V          those of them that match
  clear table T key K                the entry of a key
X is a datum that the table stores, as gpc0, or an element of an array, as gpc[1].
What they are answered is written to standard output, and behind the script's end the
numbers of the first ten lines that were bad to standard error. A connection is accepted
or rejected by the rules of FILE. Without FILE there is one table, t, which has keys of
type ip, 100 entries at most, and stores gpc0; each connection is tracked there by its
client's address, and accepted. With --load entries have the time left that was saved at
the moment of the longest expire of FILE's tables, 600000 where that is 10m.";

/// What `stickd run --help` says last.
pub(crate) const RUN_HELP: &str = "\
Listens at the 'bind' of FILE's first frontend or listen section. Each connection is
accepted or rejected by the section's rules, and relayed to its server. Commands, as
'stickd replay --help' lists them, are answered on the socket, each on a line or parted
by ';':
  echo 'show table' | socat stdio /run/stickd.sock
With --haproxy FILE is one of HAProxy, and options stand for its lines, unless they are given.
Nothing is started where what is served would change, and the status is 3, without --anyway.
With --save FILE and --load FILE entries outlast a restart, with the time that they had
left, but for their rates and connections. FILE is written as the program begins to stop in
order and once it has, with --save-every TIME also each TIME: anew beside its place, which it
takes once it is whole. A file that is cut isn't loaded. An entry whose shard is full isn't
either, which is said. A FILE that can't be written is told at the start, with status 1.
A connection is closed once a peer has been silent for its TIME. Moments are the
milliseconds since the start. With --stop-after, once N connections have ended, 'settled
NAME: C calls, R references' is printed for each table whose record is what its callers
were told; or 'unsettled NAME: S1' and its kin, and the status is 1. It is also stopped by
'stickd stop', by 'shutdown frontend NAME' on the stats socket, and by SIGTERM or SIGINT
where that was blocked as it started ('env --block-signal=TERM,INT stickd run ..'). Then it
accepts none more, lets open connections end, and says the same of each table's counts. A
second 'stickd stop', or the other one of both signals, ends open connections at once.";

/// What `stickd reload --help` says last.
pub(crate) const RELOAD_HELP: &str = "\
Asks the stickd whose stats socket is at PATH to read its FILE again, by the options of its
start, and prints what it answers, as 'Reloaded: version 2, 3 rules, server 10.0.0.5:80.'.
Connections that begin after that are judged by the new rules. Those that are open stay,
with their server and their entries. A FILE that has a fault, or that changes a table or
'bind', is refused, and then nothing changes. The status is 1 where it is refused, where
nobody answers at PATH, and where the program says nothing for --timeout's TIME; why is
said on standard error. 'stickd check FILE' says beforehand whether FILE has a fault.";

/// What `stickd stop --help` says last.
pub(crate) const STOP_HELP: &str = "\
Asks the stickd whose stats socket is at PATH to stop, and waits until it has ended. It
accepts no connection more. Those that are open go on until they end, for TIME at most,
and are then closed. Where it drains already and no TIME is given, they are closed at once.
The status is 1 where nobody answers at PATH, the program says nothing for --timeout's TIME
or still runs so long after its drain, or it couldn't save its tables.";
