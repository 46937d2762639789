//! The command `show`.

use crate::explaining::{kept, name_of, say_read, say_unwritten};
use crate::noting::Noting;
use crate::sources::is_source;
use stm_arguments::ShowWords;
use stm_commands::{Shown, Std, show_to};
use stm_explain::{Input, explain};
use stm_storing::{InputFault, read_input, read_program};

/// The status of an input that is none.
const BAD: u8 = 2;

/// Says that what is to be shown as a source is one already, and gives the status.
fn refuse_source(rt: &HostRuntime, path: &str) -> u8 {
    let path = name_of(path);
    let _ = eprintln!(rt;
        "stmrun: {path} is a source already, and stmrun show prints the source of JSON: stmrun compile {path} prints its JSON"
    );
    BAD
}

/// Why bytes are no scenario, or no program; none, where they are one.
fn fault_of(rt: &HostRuntime, input: Input, bytes: &[u8]) -> Option<InputFault> {
    let mut source = Std::new(bytes);
    if input == Input::Program {
        return read_program(rt.alloc(), &mut source).err();
    }
    read_input(rt.alloc(), &mut source).err()
}

/// Says of the bytes of the file of a name, which are no scenario and a program, or the reverse, how they are shown; and answers whether they are that.
fn say_other(rt: &HostRuntime, input: Input, name: &str, bytes: &[u8]) -> bool {
    let (other, words) = if input == Input::Program {
        (Input::Scenario, "scenario: stmrun show, without --program,")
    } else {
        (Input::Program, "program: stmrun show --program")
    };
    match fault_of(rt, other, bytes) {
        Some(_) => false,
        None => {
            let _ = eprintln!(rt; "{name}: this is a {words} shows it");
            true
        }
    }
}

/// Explains why the bytes of the file of a name are no scenario, or no program; nothing, where memory runs out.
fn say_bad(rt: &HostRuntime, input: Input, name: &str, bytes: &[u8]) {
    if say_other(rt, input, name, bytes) {
        return;
    }
    if let Some(InputFault::Bad(bad)) = fault_of(rt, input, bytes) {
        if let Ok(said) = explain(rt.alloc(), input, name, bytes, &bad) {
            let _ = rt.eprint(said.as_str());
        }
    }
}

/// Prints the source of a scenario or of a program. A fault is explained, or is not.
pub(crate) fn run_show(rt: &HostRuntime, words: &ShowWords<'_>, explains: bool) -> u8 {
    let (shown, form) = if words.program {
        (Shown::Program, Input::Program)
    } else {
        (Shown::Scenario, Input::Scenario)
    };
    let path = words.input.unwrap_or("-");
    if is_source(path) {
        return refuse_source(rt, path);
    }
    let mut input = kept(rt, path);
    let mut out = Std::new(Noting::new(rt.stdout()));
    let mut err = Std::new(rt.stderr());
    let status = show_to(rt.alloc(), shown, &mut input, &mut out, &mut err);
    if explains {
        if status == BAD && !input.is_cut {
            say_bad(rt, form, input.name, input.bytes.as_slice());
        }
        say_unwritten(rt, out.device.failure);
    }
    say_read(rt, &input);
    status
}
