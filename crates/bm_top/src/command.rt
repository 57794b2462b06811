ghost use Rattle.std.specs.Prelude.{◌≡◌, map};
ghost use Rattle.std.specs.Option.{option_map};
ghost use Rattle.std.specs.String.{string_bytes};
ghost use Rattle.bm_top.specs.Command.{form_of, request_of, request_of_one, request_of_three, request_of_two};
ghost use Rattle.bm_top.specs.steps.Requested.{requested};

use result_write::Form;

const ASK: &str = "ask";

const LOAD: &str = "load";

const QUERY: &str = "query";

const CHECK: &str = "check";

const TSV: &str = "tsv";

const JSON: &str = "json";

/// What is asked for, with the names of the files.
#[derive(Clone, Copy, Debug)]
pub(crate) enum Command<'a> {
    /// The query of one file is answered over the data of another, in a form.
    Ask {
        data: &'a str,
        query: &'a str,
        form: Form,
    },
    /// The index of the data of one file is written to another.
    Load {
        data: &'a str,
        index: &'a str,
    },
    /// The query of one file is answered over the index of another, in a form.
    Query {
        index: &'a str,
        query: &'a str,
        form: Form,
    },
    /// An index is looked at.
    Check {
        index: &'a str,
    },
}

/// The command that some words are, if they are a row of the table of commands.
pub(crate) fn parse_words(words: &[String]) -> Option<Command<'_>>
    ensures { option_map requested result ≡ request_of (map string_bytes words.now) }
{
    match words {
        [command, file] => of_one_file(command, file),
        [command, file, other] => of_two_files(command, file, other),
        [command, file, query, form] => in_form(command, file, query, form),
        _ => None,
    }
}

fn of_one_file<'a>(command: &str, index: &'a str) -> Option<Command<'a>>
    ensures { option_map requested result ≡ request_of_one command.now index.now }
{
    if command == CHECK {
        Some(Command::Check { index })
    } else {
        None
    }
}

fn of_two_files<'a>(command: &str, data: &'a str, index: &'a str) -> Option<Command<'a>>
    ensures { option_map requested result ≡ request_of_two command.now «data».now index.now }
{
    if command == LOAD {
        Some(Command::Load { data, index })
    } else {
        None
    }
}

/// The commands that answer a query, in the form of the last word.
fn in_form<'a>(command: &str, file: &'a str, query: &'a str, form: &str) -> Option<Command<'a>>
    ensures { option_map requested result ≡ request_of_three command.now file.now query.now form.now }
{
    let form = parse_form(form)?;
    if command == ASK {
        Some(Command::Ask {
            data: file,
            query,
            form,
        })
    } else if command == QUERY {
        Some(Command::Query {
            index: file,
            query,
            form,
        })
    } else {
        None
    }
}

/// The form that a word names.
fn parse_form(word: &str) -> Option<Form>
    ensures { result ≡ form_of word.now }
{
    if word == TSV {
        Some(Form::Tsv)
    } else if word == JSON {
        Some(Form::Json)
    } else {
        None
    }
}
