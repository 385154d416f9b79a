//! The texts at the end of the help of the program and of each command.

pub(crate) const PROGRAM_HELP: &str =
    "A job, a schedule or a scene is read from standard input; the help of each command says which.

Examples:
  x3d_share run < examples/two-clocks.job
  x3d_share format < examples/lamp.x3dv
  x3d_share check < examples/lamp.x3dv
  x3d_share rehearse < examples/rehearsal.schedule
  x3d_share agree < examples/two-clocks.job

Status:
  0  all was done
  1  the scene, a text or a log is refused
  2  the words, the job, an address or a key is refused, or a file doesn't fit them
  3  all turns were used up, or the run is over
  4  a device failed
  5  memory ran out";

pub(crate) const RUN_HELP: &str =
    "A job is lines of steps, a line `scene`, and then the scene. Steps are
`clock T` and `point V D ox oy oz dx dy dz`.

Example:
  x3d_share run < examples/two-clocks.job

Status:
  0  the trace and the scene are printed, or with --no-trace the scene
  1  the scene is refused
  2  the words or the job are refused
  4  a device failed
  5  memory ran out";

pub(crate) const FORMAT_HELP: &str = "A scene is read from standard input.

Example:
  x3d_share format < examples/lamp.x3dv

Status:
  0  the scene is printed
  1  the scene is refused
  2  the words are refused
  4  a device failed
  5  memory ran out";

pub(crate) const CHECK_HELP: &str = "A scene is read from standard input.

Example:
  x3d_share check < examples/lamp.x3dv

Status:
  0  the scene is good
  1  the scene is refused
  2  the words are refused
  4  a device failed
  5  memory ran out";

pub(crate) const REHEARSE_HELP: &str =
    "A schedule is read from standard input: lines of steps, a line `scene`, and then the scene.
Steps of the host are `clock T`, `packet N`, `ack V`, `give P host`, `floor N` and `notice`; those
of viewer V are `give P V`, `offer V D ox oy oz dx dy dz`, `resend V I`, `ask V`, `save V`,
`rewind V S B`, `gather P V`, `join V B` and `forget V`. `piece S I` makes packet I of snapshot S.
Packets and snapshots are numbered from 0, in the order in which they are made.

Example:
  x3d_share rehearse --viewers 2 < examples/rehearsal.schedule

Status:
  0  the answer of each step, and the texts of each viewer at the end, are printed
  1  the scene is refused
  2  the words or the schedule are refused
  4  a device failed
  5  memory ran out";

pub(crate) const AGREE_HELP: &str =
    "A job is read from standard input, as by `run`; its points are those of
viewers below K.

Example:
  x3d_share agree --viewers 2 < examples/two-clocks.job

Status:
  0  `agreed` and how many inputs there are, the trace and the scene are printed
  1  the scene is refused
  2  the words or the job are refused
  3  all turns were used up
  4  a device failed
  5  memory ran out";

pub(crate) const HOST_HELP: &str = "A job of clocks is read from standard input; nothing is printed.

With --until N the host ends once N inputs are numbered, at least one viewer was heard, and each
viewer that was heard has asked for the input after the last. Without it the host takes all its
turns. With --keep N it drops the inputs that all viewers that were heard have asked past, except
the last N, but none before K viewers were heard or 30 seconds have passed. A viewer that comes
later joins by a snapshot (`view --join`), or never catches up. A viewer that hasn't asked for 10
seconds doesn't count until it asks again.
A turn takes up to 64 datagrams. If nothing comes, the host rests between turns for 1 to 50
milliseconds, so 1000000 turns last up to 14 hours.
With --listen ADDRESS:PORT the host is on a network. A name is looked up once, as the host starts.
Beyond the loopback addresses that takes --keys, or the word --open. `key` makes the keys. With them
the host drops what isn't sealed by a viewer's key, and answers nothing else; nothing is encrypted.
Without them whoever has the scene may take part. With either it speaks version 2 of datagrams. Then
an address that the host doesn't know gets one answer of no more bytes than it sent, and is known
once it has sent back the cookie in it. Of each viewer it takes 8 datagrams a turn and 64 offers a
second. With --keys it keeps the world, and gives its snapshot to viewers that join. With --forget N
that world keeps the lines of its trace of the last N inputs; older ones are forgotten.
With --listen it knows 512 addresses. The 128 that it answered last stay; of the others the one that
came first gives way.
With --new-log FILE the host makes a log, and stores each input in it before it sends it. After the
host has ended, even if it was killed, `host --log FILE` resumes the same world: it skips the
clocks that the log already has. With a log the turns have no end. With --every MS the host makes a
clock every MS milliseconds once the job's are over, at the time of the last input as it began and
the time that has passed since, so the world stands still while no host runs.
With --etcd ADDRESS:PORT[,..] and --world NAME the log is in etcd, and other hosts may share it. The
first of them makes it. Each numbers what reaches it; a viewer that one doesn't answer turns to the
next (`view --host A,B`). With --standby SECONDS a host makes clocks only once no other host has
made an input for so long. A host that etcd doesn't answer is silent. The user's name and the
password are two lines of the file that --login names. Nothing is encrypted on the way to etcd.

Examples:
  x3d_share host --port 4000 --until 2 < examples/two-clocks.job
  x3d_share host --port 4000 --new-log w.x3dlog < examples/two-clocks.job
  x3d_share host --port 4000 --log w.x3dlog < examples/two-clocks.job
  x3d_share host --port 4000 --etcd 192.0.2.9:2379 --world w < examples/two-clocks.job
  x3d_share host --listen 192.0.2.7:4000 --keys keys/host.keys < examples/two-clocks.job

Status:
  0  all turns were taken, or with --until N, the inputs were numbered and asked for
  1  the scene or the log is refused
  2  the words, the job, the address or the keys are refused, or the log's file doesn't fit them
  3  with --until N, all turns were used up
  4  a device failed, another host has the log, or etcd didn't answer as the host started
  5  memory ran out";

pub(crate) const RECALL_HELP: &str = "The file of a host's log is read from standard input.

The inputs are printed in order, as lines `clock T` and `point V D ox oy oz dx dy dz`. Followed by a
line `scene` and the scene, they are a job. Its run prints what each viewer of that world prints.
With --info these lines are printed instead: the number of viewers, the scene's SHA-256, the run,
how many inputs there are and how many of them are clocks, the size of the file and how much of it
is of an append that was not finished, the times of the first and the last input, and how many
inputs each viewer has offered. With --until N they are about the first N inputs.
With --new-log FILE nothing is printed. A log of the inputs is made in FILE, with a run of its own,
and `host --log FILE` begins there: so a world goes back to input N. Its viewers are started again.

Examples:
  (x3d_share recall < w.x3dlog; echo scene; cat scene.x3dv) | x3d_share run
  x3d_share recall --until 100 --new-log back.x3dlog < w.x3dlog

Status:
  0  the steps are printed, or the log is made
  1  the log is refused
  2  the words are refused, or there is something in the new log's file
  4  a device failed, or another process has the new log's file
  5  memory ran out";

pub(crate) const VIEW_HELP: &str = "A job of this viewer's points is read from standard input.

One of --until and --exactly is required. With --until N the viewer ends once at least N inputs are
applied. It may have applied up to 126 more by then, so two viewers may print different texts. With
--exactly N it ignores later inputs, and two viewers print the same bytes.
With --forget N it keeps the lines of the trace of the last N inputs; older ones are forgotten.
Without --boot it takes the boot after the last one that the host knows of it, or the seconds since
2020 if they are more, so a viewer that is started again works.
A viewer that comes late needn't ask for all inputs. With --join --at Q it starts from a snapshot
that another viewer sends to port Q in pieces, and asks for the inputs after it. A --boot must be
above the other viewer's. With --key --join the host gives, and no --at is needed. With --give Q a
viewer that has applied its N inputs prints its texts, and then sends its snapshot to port Q
repeatedly, a piece of 192 bytes a turn, in --give-turns turns. Of these 32 take a millisecond or
two, so 1000000 last about a minute.
A turn of the others takes up to 64 datagrams. If nothing comes, a turn waits 50 milliseconds, and
up to 50 more pass before the next, so 1000000 turns last up to 28 hours.
A viewer that is stopped by a signal before its inputs are applied prints nothing.
It asks the host for its run, for a second, and then stays in it: datagrams of other runs are
dropped. If the host doesn't answer, it speaks version 1 of datagrams, in which a run has no name.
With --wire 2 it asks for 10 seconds and then ends, with --wire 1 it doesn't ask.
With --host ADDRESS:PORT the host is on another machine. A name is looked up once, as the viewer
starts. Beyond the loopback addresses that takes --key, or the word --open. With --key FILE it seals
what it sends, and drops what isn't sealed by the host with its key; its host has to have --keys.
With either it speaks version 2, as with --wire 2. The ports of --at and --give are of this machine.
With --host ADDRESS:PORT,ADDRESS:PORT it speaks to the first of several hosts that share a log, and
turns to the next where one is silent for 2 seconds.
With --world NAME it is of that world of a host that serves many, and speaks version 2.

Examples:
  x3d_share view --port 4000 --who 0 --until 2 < examples/view.job
  x3d_share view --host 192.0.2.7:4000 --key viewer-0.key --who 0 --until 2 < view.job

Status:
  0  the trace and the scene are printed
  1  the scene is refused, or with --join, what was gathered is not a snapshot of it
  2  the words, the job, the address or the key are refused, or with --join, the boot is, or no boot
     is left
  3  all turns were used up, the run is over, or with --wire 2, --host, --key or --world, no host
     answered
  4  a device failed
  5  memory ran out";

pub(crate) const SERVE_HELP: &str = "Nothing is read from standard input, and nothing is printed.

Each file NAME.job in FOLDER is a world, a job of clocks as of `host`. Its log is NAME.x3dlog, which
is made if it isn't there, and its keys are those of NAME.keys, if that file is there. NAME is up to
64 letters, digits, '-', '_' and '.'. A viewer names its world by `view --world NAME`, and speaks
version 2 of datagrams alone.
The folder is read each second. A world is added when its job appears, tried again when its job
changes, and dropped when its job goes; its log stays. A world that is refused is told once on
standard error, with its name, and the others go on.
Each world is as with `host --log`: it goes on where its log ends. --keep, --forget, --every and
--viewers are those of each world.
With --base N the log of a world with keys has its last N to 2N inputs: each N inputs it begins
anew, after a snapshot of the world in NAME.M.x3dw, where M is the number of its inputs. So it stays
short, and a world of any age goes on at once. It needs that file, and the keys. With --etcd the
snapshot is in etcd, beside the log.
With --etcd ADDRESS:PORT[,..] the logs are in etcd instead, each under the name of its job, as with
`host --etcd`. The user's name and the password are two lines of the file that --login names.
Nothing is encrypted on the way to etcd.
With --listen ADDRESS:PORT the socket is on a network. Beyond the loopback addresses a world takes
keys, or the word --open.
It runs until it is stopped by a signal.

Examples:
  x3d_share serve --listen 192.0.2.7:4000 worlds
  x3d_share serve --listen 192.0.2.7:4000 --etcd 192.0.2.9:2379 worlds

Status:
  2  the words or the address are refused, or the folder can't be read
  4  a device failed
  5  memory ran out";

pub(crate) const PART_HELP: &str =
    "A text in the Classic encoding is read from standard input, such as a file of another program.

Nodes, fields and statements that the core doesn't have are left out, with all that names them, and
so is what `check` refuses. The rest, which `check` calls good, is printed. A line for each thing
that was left out is printed on standard error, and a last line with their number.
With --list only these lines are printed, on standard output.
With --keep-names FILE the part is refused if no node in it has the name of a line of FILE after
DEF. A second line has that name, and what it went with.

Example:
  x3d_share part < room.wrl > room.x3dv

Status:
  0  the part is printed
  1  the text is refused, or its part passes a limit or lacks a name
  2  the words are refused, or the file of names can't be read
  4  a device failed
  5  memory ran out";

pub(crate) const KEY_HELP: &str = "Nothing is read from standard input, and nothing is printed.

In FOLDER, which has to be there, the files host.keys and viewer-0.key to viewer-(K-1).key are made,
with keys that the system draws at random. Only their owner may read them. Nothing is made if one of
them is there.
The host takes host.keys (`host --keys`), and viewer V takes viewer-V.key (`view --key`) and no
other. Whoever has viewer-V.key can take part as viewer V. Send it on a channel that no one else can
read.

Example:
  x3d_share key --viewers 2 keys

Status:
  0  the files are made
  2  the words are refused, or one of the files is there
  4  a device failed
  5  memory ran out";
