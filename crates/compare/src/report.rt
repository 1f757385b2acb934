// A line for each answer.
use crate::possible::Possible;
use book::answer::{Answer, Reply};
use book::figure::Figure;
use std::fmt::Display;
use std::{fmt, io};

pub fn print_answers(rt: &HostRuntime, plan: &str, answers: &[Answer<Possible>]) -> io::Result<()> {
    for answer in answers {
        println!(rt; "{plan}: {}", Told(*answer))?;
    }
    Ok(())
}

pub fn print_figure(rt: &HostRuntime, plan: &str, figure: Figure) -> io::Result<()> {
    println!(rt; "{plan}: {}", Told(figure))
}

// As a line tells it.
#[derive(Drop)]
struct Told<T>(T);

impl Display for Told<Answer<Possible>> {
    fn fmt<W: fmt::Write>(&self, f: &mut fmt::Formatter<W>) -> fmt::Result {
        match self.0 {
            Ok(Reply::Done) => write!(f, "done"),
            Ok(Reply::Figure(figure)) => write!(f, "{}", Told(figure)),
            Ok(Reply::Importance(units)) => write!(f, "importance {units}"),
            Ok(Reply::Weighed(Possible { yes: true })) => write!(f, "works in some state"),
            Ok(Reply::Weighed(Possible { yes: false })) => write!(f, "works in no state"),
            Err(why) => write!(f, "refused {}", why.number()),
        }
    }
}

impl Display for Told<Figure> {
    fn fmt<W: fmt::Write>(&self, f: &mut fmt::Formatter<W>) -> fmt::Result {
        let Told(Figure { units, held }) = self;
        if *held {
            write!(f, "figure {units}, held")
        } else {
            write!(f, "figure {units}")
        }
    }
}
