// The answer in words, with its number.
use super::line::Output;
use super::text::{After, Counted, Joined};
use player::Stopped;
use program::Refusal;
use std::fmt;
use std::fmt::Display;

// The most entries of a book that are told.
const TOLD: usize = 12;

fn cycles(count: u16) -> Counted {
    Counted::new(count, "cycle")
}

// How a run came to its end that no question refused, with the cycles that it worked.
#[derive(Clone, Copy)]
pub enum Worked {
    Ended(u16),
    // As many cycles as were asked.
    Asked(u16),
}

impl Display for Worked {
    fn fmt<W: fmt::Write>(&self, f: &mut fmt::Formatter<W>) -> fmt::Result {
        match self {
            Worked::Ended(count) => write!(f, "ended after {}", cycles(*count)),
            Worked::Asked(count) => write!(
                f,
                "stopped after {}, as many as were asked",
                cycles(*count)
            ),
        }
    }
}

pub fn print_worked(out: Output, worked: Worked) -> fmt::Result {
    out.say(format_args!("Number 0: {worked}."))
}

// The first place of the paper that a question refuses.
#[derive(Clone, Copy)]
enum Place {
    Expression(u16),
    Node(u16),
    Variable(u16),
}

impl Place {
    // A paper has a width for each variable, so that question 11 is about a variable that there is.
    fn of(refusal: Refusal) -> Option<Place> {
        match refusal {
            Refusal::Expr(item) => Some(Place::Expression(item)),
            Refusal::Node(item) | Refusal::Reference(item) => Some(Place::Node(item)),
            Refusal::Width(item) => Some(Place::Variable(item)),
            _ => None,
        }
    }

    fn item(self) -> u16 {
        match self {
            Place::Expression(item) | Place::Node(item) | Place::Variable(item) => item,
        }
    }
}

impl Display for Place {
    fn fmt<W: fmt::Write>(&self, f: &mut fmt::Formatter<W>) -> fmt::Result {
        let before = match self {
            Place::Expression(_) => "expression ",
            Place::Node(_) => "node ",
            Place::Variable(_) => "v",
        };
        write!(f, "{before}{}", self.item())
    }
}

// What went wrong. A paper's lists are whole records, and it has a width for each variable: so question 1 is about the
// counts alone, and question 11 about the widths themselves. Begin alone asks question 6 of what a paper gives, and it
// asks it of the values.
fn reason(refusal: Refusal) -> &'static str {
    match refusal {
        Refusal::Sizes =>
            "A count is outside its limits: N is 1 to 1024, E 0 to 1024, V and C 0 to 256.",
        Refusal::Expr(_) =>
            "Its op is unknown, an operand is out of range, or an unused word is not 0.",
        Refusal::Node(_) =>
            "Its kind, end, parent, depth, number of children or an unused word is wrong.",
        Refusal::Reference(_) =>
            "It refers to a variable, a channel or an expression that the program does not have.",
        Refusal::Lengths => "A list of the state has a wrong length.",
        Refusal::State => "A starting value is too wide for its variable.",
        Refusal::Entries => "The book's next entries are not the active statements, each once.",
        Refusal::Channels =>
            "Two active IN statements, or two active OUT statements, use one channel.",
        Refusal::Stores => "Two completing statements store to one variable.",
        Refusal::Loop =>
            "A loop would go round without taking a cycle: its condition is true, and its body takes none.",
        Refusal::Width(_) => "It is not 1 to 16 bits wide.",
        Refusal::File =>
            "The file is cut short or damaged: its length and its last 16 bytes do not fit together.",
        Refusal::Room => "A list or a file is longer than its buffer.",
    }
}

// The answer of a call, or of a file, that a question refuses: its number, with the item where it has one, and the reason.
// A run is refused after so many cycles.
fn print_refused(out: Output, refusal: Refusal, what: &str, worked: Option<u16>) -> fmt::Result {
    let number = refusal.number();
    let place = Place::of(refusal);
    out.say(format_args!(
        "Number {number}{}: {what} refused by question {number}{}{}.",
        After::new(", item ", place.map(Place::item)),
        After::new(", first at ", place),
        After::new(" after ", worked.map(cycles)),
    ))?;
    out.say(format_args!("  {}", reason(refusal)))
}

pub fn print_begin_refused(out: Output, refusal: Refusal) -> fmt::Result {
    print_refused(out, refusal, "begin", None)
}

// A paper that is not read from a file of words, or not written to one.
pub fn print_file_refused(out: Output, refusal: Refusal) -> fmt::Result {
    print_refused(out, refusal, "the paper is", None)
}

pub fn print_run_refused(out: Output, stopped: Stopped) -> fmt::Result {
    print_refused(out, stopped.refusal, "run", Some(stopped.worked))
}

// What the book has for a cycle.
pub fn print_entries(out: Output, entries: &[u16], cycle: u16) -> fmt::Result {
    let told = Joined::new(entries, TOLD, " ");
    let end = match entries.len() {
        0 => "none",
        1..=TOLD => "",
        _ => " ..",
    };
    out.say(format_args!("  The book's entries for cycle {cycle}: {told}{end}"))
}
