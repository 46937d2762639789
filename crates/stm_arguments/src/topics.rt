//! Topics of help that are about no command.
ghost use Rattle.std.specs.Prelude.{◌≡◌, ◌⊎◌, map, string_bytes};
ghost use Rattle.stm_arguments.specs.HelpTopics.{topic_by, topic_called, topic_named};

use crate::arguments::fail;
use crate::language::LANGUAGE;

const FORMATS: &str = "stmrun help language has the same in words.

A program is a JSON array of statements. Its first element may be a list of keys that each attempt reads first,
all at once: [\"prefetch\",[KEY,..]]. KEY, VALUE, TEXT and NUMBER are expressions; values are texts and numbers.

Statements
  [\"set\",VARIABLE,EXPRESSION]         a variable, 0 to 15, is set          [\"set\",0,[\"get\",\"a\"]]
  [\"put\",KEY,VALUE,LEASE]             a key is put; LEASE 0 for none       [\"put\",\"a\",\"1\",0]
  [\"del\",KEY]                         a key is deleted                     [\"del\",\"a\"]
  [\"if\",CONDITION,[..],[..]]          then these statements, else those    [\"if\",[\"eq\",[\"get\",\"a\"],\"\"],[[\"put\",\"a\",\"1\",0]],[]]
  [\"for\",VARIABLE,COUNT,LIMIT,[..]]   COUNT turns, the variable counting   [\"for\",1,3,10,[[\"emit\",[\"var\",1]]]]
                                      from 0; a fault above LIMIT, 0 to 1000
  [\"emit\",EXPRESSION]                 a value is added to the output       [\"emit\",[\"get\",\"a\"]]
  [\"abort\",TEXT]                      the run ends and commits nothing     [\"abort\",\"no funds\"]

Expressions
  \"..\"                                a text                               \"accounts/1\"
  a whole number of 64 bits           a number                             -7
  [\"var\",VARIABLE]                    what the variable was set to last    [\"var\",0]
  [\"get\",KEY]                         the key's value, \"\" if absent        [\"get\",\"a\"]
  [\"rev\",KEY]                         its modification revision, or 0      [\"rev\",\"a\"]
  [\"text_of\",NUMBER]                  the number in decimal                [\"text_of\",42]
  [\"num_of\",TEXT]                     the number that the text spells      [\"num_of\",[\"get\",\"a\"]]
                                      with \"0\" in front, an absent key     [\"num_of\",[\"cat\",\"0\",[\"get\",\"a\"]]]
                                      counts as 0 (not for one below 0)
  [\"cat\",TEXT,TEXT]                   the two texts joined                 [\"cat\",\"jobs/\",[\"text_of\",[\"var\",1]]]
  [\"add\",NUMBER,NUMBER]               the sum; also sub, mul, div and rem  [\"add\",[\"var\",0],1]

Conditions
  [\"eq\",EXPRESSION,EXPRESSION]        the two are equal                    [\"eq\",[\"rev\",\"a\"],0]
  [\"less\",EXPRESSION,EXPRESSION]      the left one is below the right one  [\"less\",[\"num_of\",[\"get\",\"a\"]],10]
  [\"not\",CONDITION]                   it does not hold                     [\"not\",[\"less\",10,[\"var\",0]]]
  [\"and\",CONDITION,CONDITION]         both hold; [\"or\",..]: one does       [\"and\",[\"eq\",[\"var\",0],1],[\"eq\",[\"var\",1],2]]

A transaction of another client, [\"txn\",[COMPARE,..],[OPERATION,..],[OPERATION,..]], makes its first operations where
all compares hold, and else its second. It has texts and numbers in place of expressions.

Compares, with ORDER \"=\", \"!=\", \">\" or \"<\"
  [\"version\",KEY,ORDER,NUMBER]        how often the key was put since it   [\"version\",\"a\",\">\",0]
                                      was made; 0 if it is absent
  [\"create\",KEY,ORDER,NUMBER]         its create revision                  [\"create\",\"a\",\"=\",0]
  [\"mod\",KEY,ORDER,NUMBER]            its modification revision            [\"mod\",\"a\",\"<\",7]
  [\"lease\",KEY,ORDER,NUMBER]          the id of its lease                  [\"lease\",\"a\",\"!=\",0]
  [\"value\",KEY,ORDER,TEXT]            its value                            [\"value\",\"a\",\"=\",\"1\"]

Operations
  [\"get\",KEY,REVISION]                a read; REVISION 0: as it is now     [\"get\",\"a\",0]
  [\"put\",KEY,VALUE,LEASE]             a key is put; LEASE 0 for none       [\"put\",\"a\",\"1\",0]
  [\"del\",KEY]                         a key is deleted                     [\"del\",\"a\"]";

const CAUSES: &str =
    "stmrun: bad scenario at PLACE: CAUSE, and so of a report and a program, says where a text is bad first and why. PLACE is
a JSON Pointer: the indices of the arrays around it, counted from 0. The causes are

  NotJson        the text is no JSON in UTF-8, or nests deeper than 127
  Shape          another word, kind of value or length of an array is wanted there; a number is whole
                 and of 64 bits
  Range          the number is outside its range
  TooMany        it is event 100001, or key 129 of a program's list
  TooLong        the text has more than 16777216 bytes, or a text of a program more than 65536
  TooDeep        it is at depth 33 of a program
  TooManyNodes   it is node 4097 of a program

In a report the line refused says why an event was refused, and the line ended why a fetch or a commit was:

  BadLimit            the limit is 0
  NoRunner            there is no such runner, or its run is over
  TooManyOps          a list of the transaction or the commit, or a program's list, has more elements than the store takes
  EmptyKey            a key is empty
  DuplicateKey        a list of the transaction puts a key twice, or puts and deletes it
  FutureRevision      a read is of a revision that the store has not reached
  Compacted           the revision is one that a compaction forgot, or is to be compacted again
  LeaseIdOutOfRange   the id is 0
  TtlOutOfRange       the time to live is not from 1 to 9000000000
  LeaseExists         there is such a lease already
  LeaseNotFound       there is no such lease, or it has ended
  TimeGoesBack        the store's moment is later than that
  NoWatcher           there is no such watcher, or it was cancelled
  RevisionsUsedUp     something is to change, and the last revision, 9223372036854775806, is reached

The line faulted says what ended a program:

  Kind          a text stands where a number is wanted, or a number where a text is
  Overflow      a result is outside the 64 bits of a number
  ZeroDivisor   a number is divided by 0
  NotANumber    a text is to be a number, and spells none
  LoopTooLong   the count of a loop is above its limit
  TurnLimit     it is turn 10001 of the program's loops
  TextTooLong   a text of more than 65536 bytes is made
  EmptyKey      a key is empty";

/// A topic of help.
#[derive(Clone, Copy, Debug, PartialEq, Eq)]
pub enum Topic {
    /// The language of sources, in tables.
    Language,
    /// The JSON of programs and of transactions, in tables.
    Formats,
    /// The causes with which texts, events and programs are refused.
    Causes,
}

impl Topic {
    /// What is printed of it.
    fn text(self) -> &'static str {
        match self {
            Topic::Language => LANGUAGE,
            Topic::Formats => FORMATS,
            Topic::Causes => CAUSES,
        }
    }
}

/// The topic of this name.
fn topic_called(name: &str) -> Option<Topic>
    ensures { result ≡ topic_called name.now }
{
    if name == "language" {
        Some(Topic::Language)
    } else if name == "stm" {
        Some(Topic::Language)
    } else if name == "source" {
        Some(Topic::Language)
    } else if name == "formats" {
        Some(Topic::Formats)
    } else if name == "causes" {
        Some(Topic::Causes)
    } else {
        None
    }
}

/// The topic that a word and a name ask for, as `help language`.
fn topic_by(word: &str, name: &str) -> Option<Topic>
    ensures { result ≡ topic_by word.now name.now }
{
    if word == "help" {
        topic_called(name)
    } else {
        None
    }
}

/// The topic of help that these words ask for, of which the first is the program's name: `help language` (also `help stm` and `help source`),
/// `help formats` or `help causes`.
pub fn topic_of(words: &[String]) -> Option<Topic>
    ensures { result ≡ topic_named (map string_bytes words.now) }
{
    if words.len() == 3 {
        topic_by(words[1].as_str(), words[2].as_str())
    } else {
        None
    }
}

/// Prints a topic, and gives the status: 0, or 3 where it could not be printed.
pub fn print_topic<R: Print + Eprint>(rt: &R, topic: Topic) -> u8
    ensures { (result ≡ 0) ⊎ (result ≡ 3) }
{
    match rt.println(topic.text()) {
        Ok(()) => 0,
        Err(_) => fail(rt, "stmrun: device fault", 3),
    }
}
