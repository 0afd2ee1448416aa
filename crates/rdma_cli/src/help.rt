//! What the program says of itself.

ghost use Rattle.std.specs.Prelude.{◌≡◌, bytes_eq, map, option_copied};
ghost use Rattle.std.specs.String.{string_bytes};
ghost use Rattle.rdma_cli.specs.About as spec;

const HELP: &str = "\
jichurpa COMMAND

  play                                    answers the lines of a script from standard input
  bulk SEED CONNECTIONS MESSAGES MOVES    plays a generated script, and sums it up in one line
  show-dump NAME                          lists what the dump in the file depot/NAME holds
  evacuate FROM TARGET..                  answers the lines of a script, and then empties a device
  audit                                   says whether a recorded run is one of the packetless machine
  record                                  writes the trace of a script, which audit finds legal
  node ID ADDRESS                         does the lines of a script on one device, over UDP
  serve ID ADDRESS [OPTION..]             serves one device over UDP, and does lines as they come
  threads WORKERS ADDS MOVES              adds by threads that share devices, while one context moves
  fanout CONSUMERS ADDS CAPACITY          hands the completions of a shared device to several threads
  mail SEED PEERS LETTERS MOVES           sends tagged letters, while the receiver moves, and takes them
  COMMAND --help                          lists the words, the limits and the statuses of a command
  --help, -h                              writes this text
  --version                               writes the version, and that of its scripts

The status is 0 if all is done, 2 for words that are no command, 3 for a bad line or dump, 4, 5, 6
and 7 if the input, the output, the link or the depot fails, 8 if memory runs out, 9 for an input of
more than 1048576 bytes, 10 if a run of threads is not as planned, 12 if the depot has no dump of
the name, 13 for a trace that is no run of the packetless machine, and 14 if a device is not
emptied.
";

const PLAY: &str = "\
jichurpa play

Answers the lines of a script from standard input, one after the other, on standard output. The
input is read to its end first, and has at most 1048576 bytes.

  0   every line is answered
  3   a line is bad: those before it are answered, and the last line names it
  4   the input cannot be read
  5   the output cannot be written
  8   memory runs out
  9   the input is too long: nothing is answered

Example: jichurpa play < hello.script
";

const BULK: &str = "\
jichurpa bulk SEED CONNECTIONS MESSAGES MOVES

Plays the generated script of a seed, and sums its answers up in one line: how many lines it has,
how many completions came, how many of them had status 0, and how many queue pairs the last settling
left with requests.

  SEED          0 to 18446744073709551615
  CONNECTIONS   1 to 8
  MESSAGES      1 to 2000
  MOVES         0 to 16

Numbers are decimal digits, without a sign or a leading zero.

  0   the script is summed up
  2   a number is out of its range
  5   the output cannot be written
  8   memory runs out

Example: jichurpa bulk 7 4 1000 5
The script itself: jichurpa-look generate 7 4 1000 5
";

const SHOW_DUMP: &str = "\
jichurpa show-dump NAME

Lists what the dump in the file depot/NAME holds, one thing a line. A name has 1 to 16 letters a to
z, digits and underscores, and begins with a letter.

  0   the dump is listed
  2   the word is no name
  3   the file holds no dump: the last line names the first wrong byte
  5   the output cannot be written
  7   the file cannot be read
  8   memory runs out
  12  there is no such file

Example: jichurpa show-dump b
";

const EVACUATE: &str = "\
jichurpa evacuate FROM TARGET..

Answers the lines of a script from standard input, as play does, and then empties the device FROM:
each context that lives on it moves to the first TARGET that takes it, one after the other. A line
is written for each context that moved, and a last line.

  FROM      1 to 255
  TARGET    1 to 255; there are 1 to 15 of them, and all ids differ

  0   the device is empty; the last line is `empty`
  3   a line is bad: those before it are answered, and the last line names it
  4   the input cannot be read
  5   the output cannot be written
  8   memory runs out
  9   the input is too long: nothing is answered
  14  the device or a target does not exist, or a context stays: the last line says which and why

Example: jichurpa evacuate 2 3 4 < evacuate.script
";

const AUDIT: &str = "\
jichurpa audit

Reads a trace from standard input, the record of a run as text, and says in one line whether it is
a run of the packetless machine. The input is read to its end, and has at most 1048576 bytes.

  0   it is: `legal`, and how many verbs and inner steps it has
  3   it is no trace: the last line names its first bad line
  4   the input cannot be read
  5   the output cannot be written
  8   memory runs out
  9   the input is too long
  13  it is not: `illegal`, the number of the first wrong line, and `step` or `answer`

Example: jichurpa audit < run.trace
";

const RECORD: &str = "\
jichurpa record

Plays a script from standard input, and writes its trace: its verbs with their answers, the inner
steps of the packetless machine where they happen, and `end`. The script has no line `settle`.
The input is read to its end, and has at most 1048576 bytes.

  0   the trace is written
  3   a line is bad, or is `settle`: nothing but the last line is written, which names it
  4   the input cannot be read
  5   the output cannot be written
  8   memory runs out: nothing but the last line is written
  9   the input is too long

Example: jichurpa record < hello.script > run.trace
";

const NODE: &str = "\
jichurpa node ID ADDRESS

Does the lines of a script from standard input on one device, whose datagrams come and go over UDP.
Each line is answered before the next one is done. The input is read to its end first, and has at
most 1048576 bytes.

  ID        1 to 255
  ADDRESS   where the device is reached: an IPv4 address, and optionally a colon and a port (4791)

  0   every line is answered
  3   a line is bad, or a file that is restored is no dump: the last line names the place
  4   the input cannot be read
  5   the output cannot be written
  6   the link fails: the last line is `link fault`
  7   the depot fails: the last line is `depot fault`
  8   memory runs out
  9   the input is too long: nothing is answered
  12  there is no file of a name that is restored

Example: jichurpa node 1 10.0.0.1 < node.script
";

const SERVE: &str = "\
jichurpa serve ID ADDRESS [--depot FOLDER] [--timeout MS] [--keep]

Serves one device, whose datagrams come and go over UDP, and does the lines of standard input as they
come. Each is answered at once, in one write, and the device is served all the while. A line that is
refused or bad changes nothing, and the run goes on. It ends when the input ends.

  ID                1 to 255
  ADDRESS           where the device is reached: an IPv4 address, and optionally a colon and a port
                    (4791)
  --depot FOLDER    where dumps are put and found (depot)
  --timeout MS      milliseconds until what nobody answers is sent again, 1 to 60000 (100); doubled
                    each time, up to 16 times that
  --keep            at the end of the input, contexts that live there are stopped into the depot,
                    each under its own name

  0   the input has ended
  5   the output cannot be written
  6   the link fails to start: the last line is `link fault`
  8   memory runs out

Example: jichurpa serve 1 10.0.0.1 --keep
";

const THREADS: &str = "\
jichurpa threads WORKERS ADDS MOVES

Runs workers in threads of their own, which share three devices. Each adds 1 to one word ADDS times,
over its own queue pair, while another thread moves the context of that word from device to device.
Then the whole run is checked, and summed up in one line: `by threads`, or `by caller` where the
threads' run did not pass the check, and was made again without threads.

  WORKERS   1 to 8
  ADDS      1 to 2000, of each worker
  MOVES     0 to 8

Numbers are decimal digits, without a sign or a leading zero.

  0   the run is as planned: the word and the number of completions are WORKERS times ADDS
  2   a number is out of its range
  5   the output cannot be written
  8   memory runs out
  10  neither run is as planned: the last line is `not as planned`

Example: jichurpa threads 4 1000 3
";

const FANOUT: &str = "\
jichurpa fanout CONSUMERS ADDS CAPACITY

One thread adds 1 to a word ADDS times, over a device that is shared. Another polls the completions,
numbers them, and puts them into one queue, from which consumers in threads of their own take them.
Each completion is taken by one consumer. The run is checked as that of threads is, and summed up in
one line: how many completions were drained, taken and left, and `by threads`, or `by caller` where
the threads' run did not pass the check, and was made again without threads.

  CONSUMERS   1 to 4
  ADDS        1 to 10000
  CAPACITY    1 to 1024 places in the queue

Numbers are decimal digits, without a sign or a leading zero.

  0   the run is as planned: ADDS completions are drained and taken, and none is left
  2   a number is out of its range
  5   the output cannot be written
  8   memory runs out
  10  neither run is as planned: the last line is `not as planned`

Example: jichurpa fanout 3 500 16
";

const MAIL: &str = "\
jichurpa mail SEED PEERS LETTERS MOVES

Sends the letters of a seed to one receiver, which moves between two devices meanwhile, and takes
all of them. Letters of over 4080 bytes are fetched by READs. The run is summed up in one line: how
many letters were sent, how many moves there were, and how many letters were taken.

  SEED     0 to 18446744073709551615
  PEERS    1 to 8 senders
  LETTERS  1 to 500
  MOVES    0 to 16

Numbers are decimal digits, without a sign or a leading zero.

  0   the run is summed up
  2   a number is out of its range
  5   the output cannot be written
  8   memory runs out

Example: jichurpa mail 7 4 200 3
";

const VERSION: &str = "jichurpa 0.1.0, scripts of version 1\n";

/// Whether a word is that one.
fn is_word(word: &[u8], text: &[u8]) -> bool
    ensures { result ≡ bytes_eq word.now text.now }
{
    word == text
}

/// Whether the word asks for help.
fn asks_for_help(word: &[u8]) -> bool
    ensures { result ≡ spec.asks_for_help word.now }
{
    is_word(word, b"--help") || is_word(word, b"-h")
}

/// The help text of a command.
#[tactic(auto, unfolding(crate::specs::About::help_of))]
fn help_of(command: &[u8]) -> Option<&'static str>
    ensures { option_copied result ≡ spec.help_of command.now }
{
    let text = match command {
        _ if is_word(command, b"play") => PLAY,
        _ if is_word(command, b"bulk") => BULK,
        _ if is_word(command, b"show-dump") => SHOW_DUMP,
        _ if is_word(command, b"evacuate") => EVACUATE,
        _ if is_word(command, b"audit") => AUDIT,
        _ if is_word(command, b"record") => RECORD,
        _ if is_word(command, b"node") => NODE,
        _ if is_word(command, b"serve") => SERVE,
        _ if is_word(command, b"threads") => THREADS,
        _ if is_word(command, b"fanout") => FANOUT,
        _ if is_word(command, b"mail") => MAIL,
        _ => return None,
    };
    Some(text)
}

/// The text of a word that asks something of the program.
fn program_text(word: &[u8]) -> Option<&'static str>
    ensures { option_copied result ≡ spec.program_text word.now }
{
    if asks_for_help(word) {
        Some(HELP)
    } else if is_word(word, b"--version") {
        Some(VERSION)
    } else {
        None
    }
}

/// The text that answers words which ask something of the program itself, or of a command. None for all other words.
#[tactic(auto, unfolding(crate::specs::About::text_about))]
pub(crate) fn about(words: &[String]) -> Option<&'static str>
    ensures { option_copied result ≡ spec.text_about (map string_bytes words.now) }
{
    match words {
        [word] => program_text(word.as_bytes()),
        [command, word] if asks_for_help(word.as_bytes()) => help_of(command.as_bytes()),
        _ => None,
    }
}
