// Starting a run, and carrying out one command of it.
ghost use Rattle.std.specs.Prelude.{◌≡◌, length};
ghost use Rattle.book_script.specs.Language.{Progress, begun};
ghost use Rattle.book_script.specs.Runs.{Executed, Inside, Stands, silent_or};

use super::Run;
use crate::command::Command;
use crate::fault::Fault;
use crate::reply::Reply;
use crate::stage::Stage;
use analysis::minimal_sets::minimal_sets;
use analysis::role::Role;
use analysis::signature::signature;
use analysis::tally::tally;
use book::book::Book;
use sheet::refusal::Refusal;
use structure::path_list::PathList;

impl Run {
    pub fn new() -> Self
        ensures { Stands result begun }
    {
        let drawn = PathList::new();
        let book = Book::open(&drawn);
        Run {
            stage: Stage::Blank,
            drawn,
            book,
        }
    }

    // A command that is refused, or not taken in this stage, changes nothing but the places of a list that found too few.
    pub fn execute(
        &mut self,
        command: Command,
        sets: &mut [u16],
        numbers: &mut [u64],
    ) -> Result<Reply, Fault>
        ensures executed { (p : Progress) → Stands self.old p → Executed command p sets.old numbers.old self.new result sets.new numbers.new }
        ensures within { Inside result (length sets.new) (length numbers.new) }
    {
        match (self.stage, command) {
            (Stage::Blank, Command::Start { order }) => {
                self.drawn.start(usize::from(order))?;
                self.stage = Stage::Drawing;
                Ok(Reply::Silent)
            }
            (Stage::Drawing, Command::Add { set }) => {
                self.drawn.add(set)?;
                Ok(Reply::Silent)
            }
            (Stage::Drawing, Command::Open) => {
                self.book = Book::open(&self.drawn);
                self.stage = Stage::Open;
                Ok(Reply::Silent)
            }
            (Stage::Open, Command::Rate { part, rating }) => {
                done(self.book.rate(usize::from(part), rating))
            }
            (Stage::Open, Command::Price { part, price }) => {
                done(self.book.price(usize::from(part), u32::from(price)))
            }
            (Stage::Open, Command::Withdraw { part }) => done(
                self.book.withdraw(usize::from(part)),
            ),
            (Stage::Open, Command::PutBack { part }) => done(self.book.put_back(usize::from(part))),
            (Stage::Open, Command::Figure) => Ok(Reply::Figure(self.book.figure())),
            (Stage::Open, Command::Tally) => Ok(Reply::Tally(tally(&self.book, numbers)?)),
            (Stage::Open, Command::Signature) => {
                Ok(Reply::Signature(signature(&self.book, numbers)?))
            }
            (Stage::Open, Command::Cuts) => {
                Ok(Reply::Cuts(minimal_sets(&self.book, Role::Cut, sets)?))
            }
            _ => Err(Fault::Stage),
        }
    }
}

// The reply to a call on the book that only does something, or does not.
fn done(res: Result<(), Refusal>) -> Result<Reply, Fault>
    ensures { result ≡ silent_or res }
{
    res?;
    Ok(Reply::Silent)
}
