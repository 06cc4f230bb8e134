// Reads lines from the standard input, and prints what each of them says.
#![tactic(auto)]

use script::buffer::LineBuffer;
use script::event::{Event, Say};
use script::line::Line;
use script::lines::{Lines, StreamLines};
use script::printer::Printer;
use script::read::read_line;
use sim::plan::{PlanNeed, PlanPart};
use std::io::Write;
use std::{fmt, io};

// What a line says, as it is printed here.
#[derive(Drop)]
struct Shown(Line);

impl fmt::Display for Shown {
    fn fmt<W: fmt::Write>(&self, f: &mut fmt::Formatter<W>) -> fmt::Result {
        match &self.0 {
            Line::Part(x, part) => {
                write!(f, "part {x}")?;
                show_part(part, f)
            }
            Line::Unfit(x) => write!(f, "unfit {x}"),
            Line::Run => write!(f, "run"),
            Line::New => write!(f, "new"),
            Line::Want(u, x, l) => write!(f, "{u} wants {x} at {l}"),
            Line::Give(u) => write!(f, "{u} gives"),
            Line::Tick(n) => write!(f, "tick {n}"),
            Line::Bad(x) => write!(f, "bad {x}"),
            Line::Slow(x, n) => write!(f, "slow {x} {n}"),
            Line::Least => write!(f, "least"),
            Line::Gives(n) => write!(f, "the board gives {n}"),
            Line::Drawn => write!(f, "drawn"),
        }
    }
}

// What a part draws, if it draws anything, and each of its needs, on lines of their own.
fn show_part<W: fmt::Write>(part: &PlanPart, f: &mut fmt::Formatter<W>) -> fmt::Result {
    let draw = part.draw;
    if draw.iter().any(|d| *d != 0) {
        write!(f, "\n  draws {draw:?}")?;
    }
    for need in part.needs() {
        let PlanNeed { on, least, most } = *need;
        write!(f, "\n  {on} {least:?} {most}")?;
    }
    Ok(())
}

fn show_events(rt: &HostRuntime) {
    let mut out = rt.stdout();
    let mut printer = Printer::new(&mut out);
    // three parts, by their numbers
    for k in 0..3 {
        printer.say(Event::Raise(k));
        printer.say(Event::Level(k, 15));
    }
    printer.say(Event::NoLine(18_446_744_073_709_551_615));
    printer.say(Event::Drawn(274_877_906_880));
    printer.say_levels(&[1, 0, 15]);
    printer.say_levels(&[]);
    printer.flush();
}

fn main(rt: HostRuntime) -> io::Result<()> {
    show_events(&rt);
    let mut input = rt.stdin();
    let mut lines = StreamLines::new(&mut input);
    let mut line = LineBuffer::new();
    // a loop has to end: the input has fewer lines
    for _ in 0..1000u32 {
        if !lines.next_line(&mut line) {
            break;
        }
        match line.text() {
            None => println!(rt; "too long")?,
            Some(text) => match read_line(text) {
                Ok(line) => {
                    let shown = Shown(line);
                    println!(rt; "{shown}")?
                }
                Err(why) => println!(rt; "no line: {why}")?,
            },
        }
    }
    Ok(())
}
