//! The page that `muxsim commands` prints: how texts are written, and the commands of programs.

/// The page of help on the texts: the lines of each text, and the commands, each with its words and its meaning. The
/// words are the same as in docs/FORMATS.md.
pub const COMMANDS: &str = "Programs, the input of 'run', are written so:

    programs 1                            or 2, for up to 128 drivers in place of 64, and for 'hangup'
    driver NAME KIND MINORS HIGH LOW MAX  a line for each driver, or none
    process 0                             then 1, 2 and so on to 63, each above its commands
    COMMAND                               a line for each command of the process
    end                                   and nothing below it

Words have one space between them, and each line ends in a line feed. KIND is 'mux' for a
multiplexing driver, 'leaf' for that of a device. MINORS is how many streams it can have, 1 to 64.
The others are in bytes: HIGH, at most 4096, and LOW, below HIGH, are the water marks of its queues,
and MAX is its longest message, 1 to 1024. All programs together have at most 100000 commands.

The commands of a program, and what each asks for:

  clone NAME                  a new stream of the driver
  open NAME MINOR             the stream of the driver's minor
  dup FD                      one more descriptor for the stream of this one
  close FD                    the end of this descriptor
  exit                        the end of all descriptors of the process
  link FD ARG                 the stream of the second linked below the driver of the first
  plink FD ARG                the same, with a persistent link
  unlink FD WHICH             the end of ordinary links
  punlink FD WHICH            the end of persistent links
  bind FD ADDR                the stream bound to the address
  unbind FD                   the end of the stream's binding
  route FD ADDR ID            messages for the address to go down the link
  unroute FD ADDR             the end of the route for the address
  write FD ADDR HEX           a message on the stream's write side
  read FD                     the first message of the stream's read side
  flush FD SIDES              those sides of the stream emptied
  inject NAME MINOR ADDR HEX  a message from the device, on the stream's read side
  transmit NAME MINOR         the first message of the stream's write side, for the device
  hangup NAME MINOR           the device of the stream to hang up; in version 2 alone

A NAME is that of a driver: 1 to 8 of 'a' to 'z' and '0' to '9', the first a letter. FD, ARG, MINOR,
ADDR and ID are decimal numbers, 0 to 4294967295 with no leading zero: a descriptor and a second one,
a minor, an address, the id of a link. Descriptors and minors count from 0, ids from 1. WHICH is an ID
or 'all', SIDES is 'r', 'w' or 'rw', and HEX is the bytes of a message in hex, two of '0' to '9' and
'a' to 'f' for each, '-' for none.

A transcript, which 'run' writes and 'check', 'replay', 'trace' and 'draw' read, is written so:

    transcript 1                          or 2, as the programs
    driver NAME KIND MINORS HIGH LOW MAX  the driver lines of the programs
    PROC COMMAND = REPLY                  each command in its turn, with its process and its reply
    config                                and below it what there is at the end:
    next ID SERIAL                        the id of the next link and the serial of the next message
    fd PROC FD NAME MINOR                 a descriptor of a process, and its stream
    link ID NAME MINOR NAME MINOR link    a link, its controlling stream and its lower one
    link ID NAME MINOR NAME MINOR plink   the same of a persistent link
    bind NAME ADDR MINOR                  a binding
    route NAME ADDR ID                    a route
    msg NAME MINOR SIDE SERIAL ADDR HEX   a queued message, with its place; SIDE is 'w' or 'r'
    full NAME MINOR SIDE                  a full queue
    hung NAME MINOR                       a stream that has hung up; in version 2 alone
    end

PROC is a process, 0 to 63. A REPLY is 'fd FD MINOR', 'id ID', 'took SERIAL', 'got SERIAL ADDR HEX',
'done' with the serials of the messages that were dropped, if any, 'eof' in version 2, or a refusal,
as 'EINVAL cycle'.

The lines that 'live' reads, after a header and driver lines as those of programs:

    PROC COMMAND                          answered by its line of a transcript
    show                                  or an empty line: the lines from 'config' on, then 'shown'
    trace on                              the same; then below each entry what it changed, two spaces in
    trace off                             the same; then no more changes
    end                                   the lines from 'config' on, and then the session is over

Any other line gets a line that begins with '?', and changes nothing.

Beside the sources, docs/COMMANDS.md has refusals and replies, and docs/FORMATS.md the texts.
";
