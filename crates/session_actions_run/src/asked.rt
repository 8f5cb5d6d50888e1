// What the words of the command ask for.
use script_input::Form;
use std::env::args;
use std::rt::Env;

/// What is written, of an input of which form.
#[derive(Clone, Copy, Debug, PartialEq, Eq)]
pub enum Asked {
    /// The report of its session.
    Report(Form),
    /// The actions of its session.
    Actions(Form),
}

/// What the words after the program's name ask for, if each is known.
pub fn read_words<R: Env + AllocGlobal>(rt: &R) -> Option<Asked> {
    let Ok(mut words) = args(rt) else {
        return None;
    };
    let _program = words.next();
    let mut form = Form::Script;
    let mut prints = false;
    for word in words {
        match word.as_str() {
            "--report" => form = Form::Report,
            "--print" => prints = true,
            _ => return None,
        }
    }
    Some(if prints {
        Asked::Actions(form)
    } else {
        Asked::Report(form)
    })
}
