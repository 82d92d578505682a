//! The commands and their words.

use clap::{Arg, ArgAction, Command};
use std::alloc::{AllocError, Global};

// What an argument takes.
#[derive(Clone, Copy)]
enum Takes {
    // A file, at its place among the words.
    File,
    // One or more words of this form, behind all others that have a place.
    Last(&'static str),
    // One of these words, at its place among the words.
    Place(&'static [&'static str]),
    // A file to write, which `-o` names too.
    Output,
    // A folder to write to, which `-o` names too, and there must be one.
    Folder,
    // One text, which this word stands for in the help.
    Text(&'static str),
    // One text, which may begin with a hyphen.
    Hyphened(&'static str),
    // One or more names.
    Names(&'static str),
    // The same, and there must be one.
    SomeNames(&'static str),
    // One text, and there must be one.
    SomeText(&'static str),
    // No name, or one behind `=`, as often as it is used.
    NameBehindSign(&'static str),
    // One of these words.
    Choice(&'static [&'static str]),
    Nothing,
}

// An argument of a command: its name, what it takes, and what it is for.
#[derive(Clone, Copy)]
struct Word(&'static str, Takes, &'static str);

// A command: its name, what it does, its own words, and those that it shares with others.
#[derive(Clone, Copy)]
struct Form {
    name: &'static str,
    about: &'static str,
    usage: &'static str,
    after: &'static str,
    words: &'static [Word],
    shared: &'static [Word],
}

const TABLE: Word = Word("TABLE", Takes::File, "The table, or - for standard input");

const NAME_SEPARATOR: Word = Word(
    "name-separator",
    Takes::Text("TEXT"),
    "Between a name and a value [default: _]",
);

const OUTPUT: Word = Word(
    "output",
    Takes::Output,
    "Where the answer goes, else standard output",
);

const TYPES: Word = Word(
    "types",
    Takes::Names("NAME=TYPE"),
    "Types: bool, date, i8 to i128, u8 to u64, str",
);

const SEPARATOR: Word = Word(
    "separator",
    Takes::Text("CHARACTER"),
    "What stands between fields [default: ,]",
);

// What each command has that reads files and writes an answer.
const SHARED: &[Word] = &[
    TYPES,
    SEPARATOR,
    Word(
        "as",
        Takes::Choice(&["csv", "json", "table"]),
        "csv (default), json or table, which people read",
    ),
    Word(
        "width",
        Takes::Text("COLUMNS"),
        "Of a table; what fits no line is named below it",
    ),
    Word(
        "threads",
        Takes::Text("COUNT"),
        "That join and group [default: one a processor]",
    ),
    OUTPUT,
];

const JOIN: Form = Form {
    name: "join",
    about: "Joins two tables",
    usage: "muigratu join <LEFT> <RIGHT> --on <KEY[=KEY]>... [OPTIONS]",
    after: "Example:{n}  muigratu join orders.csv customers.csv --on customer=id --how left{n}{n}Files come first, since --on takes all words up to the next option. A key is{n}LEFT_NAME=RIGHT_NAME, or one name for both.{n}Without --order the rows of an inner or a full join come in the order of the{n}left rows, and for one left row in that of the right rows.{n}A full join keeps both columns of a key; --coalesce coalesce makes them one.{n}The type of a key is told from both files; --types NAME=str reads texts.",
    words: &[
        Word(
            "LEFT",
            Takes::File,
            "The left table, or - for standard input",
        ),
        Word(
            "RIGHT",
            Takes::File,
            "The right table, or - for standard input",
        ),
        Word(
            "on",
            Takes::SomeNames("KEY[=KEY]"),
            "Names of the key columns",
        ),
        Word(
            "how",
            Takes::Choice(&["inner", "left", "right", "full", "semi", "anti"]),
            "inner (default), left, right, full, semi, anti",
        ),
        Word(
            "order",
            Takes::Choice(&[
                "none",
                "left",
                "right",
                "left_right",
                "right_left",
                "left-right",
                "right-left",
            ]),
            "none, left, right, left_right or right_left",
        ),
        Word(
            "validate",
            Takes::Choice(&["m:m", "m:1", "1:m", "1:1"]),
            "Unique keys: m:m (default), m:1, 1:m or 1:1",
        ),
        Word(
            "explain",
            Takes::Nothing,
            "Tell on standard error how the join goes",
        ),
        Word(
            "coalesce",
            Takes::Choice(&["specific", "coalesce", "keep"]),
            "Two keys: specific (default), coalesce or keep",
        ),
        Word(
            "suffix",
            Takes::Text("TEXT"),
            "Behind a name that is taken [default: _right]",
        ),
        Word(
            "join-nulls",
            Takes::NameBehindSign("KEY"),
            "Absent keys match, or one left key's, once each",
        ),
        Word(
            "slice",
            Takes::Hyphened("OFFSET,LENGTH"),
            "The rows of the answer that are kept",
        ),
    ],
    shared: SHARED,
};

const PIVOT: Form = Form {
    name: "pivot",
    about: "Makes a table wide",
    usage: "muigratu pivot <TABLE> --on <NAME>... [OPTIONS]",
    after: "Example:{n}  muigratu pivot orders.csv --on day --index customer --values cents --agg sum{n}{n}The file comes first, since --on takes all words up to the next option.{n}Dates make no columns unless --types NAME=str reads them as texts.{n}Decimal numbers are texts, which --agg min and max don't compare unless{n}--types NAME=str says that they are texts.",
    words: &[
        TABLE,
        Word(
            "on",
            Takes::SomeNames("NAME"),
            "Columns whose values become columns",
        ),
        Word(
            "index",
            Takes::Names("NAME"),
            "Whose values become rows [default: all others]",
        ),
        Word(
            "values",
            Takes::Names("NAME"),
            "Whose values are cells [default: all others]",
        ),
        Word(
            "agg",
            Takes::Choice(&["first", "last", "sum", "min", "max", "count"]),
            "first, last, sum, min, max or count of a cell",
        ),
        Word(
            "sort-columns",
            Takes::Nothing,
            "The new columns go by their names",
        ),
        NAME_SEPARATOR,
    ],
    shared: SHARED,
};

const UNPIVOT: Form = Form {
    name: "unpivot",
    about: "Makes a table long",
    usage: "muigratu unpivot <TABLE> [OPTIONS]",
    after: "Example:{n}  muigratu unpivot orders.csv --on cents --index order{n}{n}The file comes first, since --on takes all words up to the next option.",
    words: &[
        TABLE,
        Word(
            "on",
            Takes::Names("NAME"),
            "Put one below another [default: all others]",
        ),
        Word(
            "index",
            Takes::Names("NAME"),
            "Columns that stay beside them",
        ),
        Word(
            "variable-name",
            Takes::Text("TEXT"),
            "The column of names [default: variable]",
        ),
        Word(
            "value-name",
            Takes::Text("TEXT"),
            "The column of values [default: value]",
        ),
    ],
    shared: SHARED,
};

const DUMMIES: Form = Form {
    name: "dummies",
    about: "Marks the values of columns with 1 and 0",
    usage: "muigratu dummies <TABLE> [OPTIONS]",
    after: "Example:{n}  muigratu dummies orders.csv --columns day{n}{n}The file comes first, since --columns takes all words up to the next option.",
    words: &[
        TABLE,
        Word(
            "columns",
            Takes::Names("NAME"),
            "Replaced [default: all texts and truth values]",
        ),
        NAME_SEPARATOR,
        Word(
            "drop-first",
            Takes::Nothing,
            "The value of the first row is left out",
        ),
    ],
    shared: SHARED,
};

const PLAN: Form = Form {
    name: "plan",
    about: "Joins and filters tables by a plan",
    usage: "muigratu plan <PLAN> <NAME=FILE>... [OPTIONS]",
    after: "Example:{n}  muigratu plan plan.json orders=orders.csv customers=customers.csv{n}{n}The plan is an object in JSON: root, and perhaps pivot and push, as in requests.{n}NAME is what the plan calls the table of FILE.{n}The type of a column is told from its file alone; --types NAME=str reads texts.{n}Decimal numbers are texts, which compare by their characters.",
    words: &[
        Word("PLAN", Takes::File, "The plan, or - for standard input"),
        Word(
            "TABLES",
            Takes::Last("NAME=FILE"),
            "The tables, each by its name in the plan",
        ),
        Word(
            "explain",
            Takes::Nothing,
            "Print the tree as it is run, and how many rows",
        ),
    ],
    shared: SHARED,
};

const DELTA: Form = Form {
    name: "delta",
    about: "Tells what changes of rows change in a join of two tables",
    usage: "muigratu delta <LEFT> <RIGHT> --on <KEY[=KEY]> --steps <FILE> [OPTIONS]",
    after: "Example:{n}  muigratu delta orders.csv customers.csv --on customer=id --steps steps.jsonl{n}{n}Each line of the steps is a step in JSON:{n}  {\"insert\":\"right\",\"row\":{\"id\":30,\"name\":\"Alan\",\"town\":null}}{n}  {\"remove\":\"left\",\"id\":0}{n}A row has a field for each column, which is null where there is no value.{n}The rows of a file have the ids 0, 1, 2 and so on, and new rows the next ones.{n}Without --table each pair of rows that comes (+) or goes (-) is a row: the{n}number of the step, the sign, and the ids of the left and the right row.",
    words: &[
        Word(
            "LEFT",
            Takes::File,
            "The left table, or - for standard input",
        ),
        Word(
            "RIGHT",
            Takes::File,
            "The right table, or - for standard input",
        ),
        Word(
            "on",
            Takes::SomeText("KEY[=KEY]"),
            "Names of the key columns",
        ),
        Word(
            "steps",
            Takes::SomeText("FILE"),
            "Rows put in and taken out, a step a line",
        ),
        Word("join-nulls", Takes::Nothing, "Absent keys match"),
        Word(
            "table",
            Takes::Nothing,
            "Write the joined table behind all steps",
        ),
    ],
    shared: SHARED,
};

const GROUP: Form = Form {
    name: "group",
    about: "Makes a row of each group of rows",
    usage: "muigratu group <TABLE> --by <NAME>... [OPTIONS]",
    after: "Example:{n}  muigratu group orders.csv --by day --agg total=sum:cents orders=count:order{n}{n}The file comes first, since --by takes all words up to the next option.{n}KIND is first, last, count, sum, min or max of the values of column NAME in a{n}group; NEW is what the new column is called. Without --agg each group is told.{n}Groups come in the order of their first rows; with --sort in that of the values{n}of the columns of --by, an absent value first.{n}Decimal numbers are texts, which neither min and max nor --sort compare unless{n}--types NAME=str says that they are texts.",
    words: &[
        TABLE,
        Word(
            "by",
            Takes::SomeNames("NAME"),
            "Rows with the same values here are a group",
        ),
        Word(
            "agg",
            Takes::Names("NEW=KIND:NAME"),
            "Columns that are made of each group",
        ),
        Word("sort", Takes::Nothing, "Groups go by the values of --by"),
    ],
    shared: SHARED,
};

const SPLIT: Form = Form {
    name: "split",
    about: "Splits a table into files by its keys",
    usage: "muigratu split <TABLE> --on <NAME>... --parts <NUMBER> --output <FOLDER> [OPTIONS]",
    after: "Example:{n}  muigratu split orders.csv --on customer --parts 4 --output parts{n}{n}The file comes first, since --on takes all words up to the next option.{n}Rows with the same keys stand in one file. Two tables that are split with one{n}NUMBER meet part by part: a join of them is the joins of part-0.csv with{n}part-0.csv, of part-1.csv with part-1.csv and so on, if both read their keys{n}by one type, which --types gives where the files differ.",
    words: &[
        TABLE,
        Word("on", Takes::SomeNames("NAME"), "Names of the key columns"),
        Word(
            "parts",
            Takes::SomeText("NUMBER"),
            "How many files, from 1 to 65536",
        ),
        Word(
            "number",
            Takes::Text("NAME"),
            "A first column of this name numbers the rows",
        ),
        Word(
            "output",
            Takes::Folder,
            "Where the files go: part-0.csv and so on",
        ),
    ],
    shared: &[TYPES, SEPARATOR],
};

const WHY: Form = Form {
    name: "why",
    about: "Tells whether a text is a request, or why not and where",
    usage: "muigratu why <COMMAND> <REQUEST>",
    after: "Example:{n}  muigratu why join request.json",
    words: &[
        Word(
            "COMMAND",
            Takes::Place(&[
                "join", "unpivot", "dummies", "pivot", "plan", "delta", "group",
            ]),
            "The command whose request it is to be",
        ),
        Word(
            "REQUEST",
            Takes::File,
            "The request in JSON, or - for standard input",
        ),
    ],
    shared: &[],
};

const REQUEST: Form = Form {
    name: "request",
    about: "Makes an answer of the JSON program a table of a request",
    usage: "muigratu request <ANSWER> [OPTIONS]",
    after: "Example:{n}  muigratu request answer.json --output table.json",
    words: &[
        Word(
            "ANSWER",
            Takes::File,
            "The answer in JSON, or - for standard input",
        ),
        Word(
            "runs",
            Takes::Nothing,
            "Write runs of equal values where that is shorter",
        ),
    ],
    shared: &[OUTPUT],
};

const FORMS: [Form; 10] = [
    JOIN, PIVOT, UNPIVOT, DUMMIES, PLAN, DELTA, GROUP, SPLIT, WHY, REQUEST,
];

fn placed_arg<'a>(alloc: Global, name: &'a str) -> Arg<'a> {
    Arg::new(alloc, name).action(ArgAction::Set).required(true)
}

fn many<'a>(arg: Arg<'a>, value: &'a str) -> Arg<'a> {
    arg.value_name(value)
        .num_args(1..)
        .action(ArgAction::Append)
}

fn named_arg<'a>(alloc: Global, name: &'a str, takes: Takes) -> Arg<'a> {
    let arg = Arg::new(alloc, name).long(name).action(ArgAction::Set);
    match takes {
        Takes::File => placed_arg(alloc, name),
        Takes::Last(value) => many(placed_arg(alloc, name), value),
        Takes::Place(words) => placed_arg(alloc, name).value_parser(words),
        Takes::Output => arg.short('o').value_name("FILE"),
        Takes::Folder => arg.short('o').value_name("FOLDER").required(true),
        Takes::Text(value) => arg.value_name(value),
        Takes::SomeText(value) => arg.value_name(value).required(true),
        Takes::Hyphened(value) => arg.value_name(value).allow_hyphen_values(true),
        Takes::Names(value) => many(arg, value),
        Takes::SomeNames(value) => many(arg, value).required(true),
        Takes::NameBehindSign(value) => arg
            .value_name(value)
            .num_args(0..=1)
            .require_equals(true)
            .action(ArgAction::Append),
        Takes::Choice(words) => arg
            .value_name("WORD")
            .value_parser(words)
            .hide_possible_values(true),
        Takes::Nothing => arg.action(ArgAction::SetTrue),
    }
}

fn with_words<'a>(
    alloc: Global,
    command: Command<'a>,
    words: &[Word],
) -> Result<Command<'a>, AllocError> {
    let mut command = command;
    for Word(name, takes, help) in words {
        command = command.arg(named_arg(alloc, name, *takes).help(help))?;
    }
    Ok(command)
}

fn command_of<'a>(alloc: Global, form: Form) -> Result<Command<'a>, AllocError> {
    let command = Command::new(alloc, form.name)
        .about(form.about)
        .override_usage(form.usage)
        .after_help(form.after);
    let command = with_words(alloc, command, form.words)?;
    with_words(alloc, command, form.shared)
}

fn with_command<'a>(
    alloc: Global,
    program: Command<'a>,
    form: Form,
) -> Result<Command<'a>, AllocError> {
    program.subcommand(command_of(alloc, form)?)
}

fn named_program<'a>(alloc: Global) -> Result<Command<'a>, AllocError> {
    Command::new(alloc, "muigratu")
        .version("0.4.0")
        .propagate_version(true)
        .about("Joins and reshapes tables of comma-separated values")
        .subcommand_required(true)
        .arg_required_else_help(true)
        .bin_name("muigratu")
}

/// The program's command, with its subcommands.
pub fn program<'a>(alloc: Global) -> Result<Command<'a>, AllocError> {
    let mut program = named_program(alloc)?;
    for form in &FORMS {
        program = with_command(alloc, program, *form)?;
    }
    Ok(program)
}
