// Replays a list of calls, with all their arguments, on a book just opened. Slots that a weigh brings beyond those lent here change nothing.
ghost use Rattle.std.specs.Prelude.{◌≡◌, ◌≤◌, length, None};
ghost use Rattle.analysis.specs.Weighed.{slots_needed};
ghost use Rattle.sheet.specs.Rows.{allowed};
ghost use Rattle.book.specs.Books.{opened};
ghost use Rattle.book.specs.Following.{Follows, Spared, done_or};
ghost use Rattle.book.specs.Replays.{Replayed, Whole, room_refused};

use crate::answer::{Answer, Reply};
use crate::book::Book;
use crate::call::{Call, Weights};
use crate::figure::Figure;
use crate::plan::Plan;
use analysis::refusal::Refusal as AnalysisRefusal;
use analysis::weigh::slots_needed;
use sheet::refusal::Refusal;
use structure::order::Order;
use structure::structure::Structure;
use weight::Weight;

impl<S: Structure, W: Weight> Plan<'_, '_, S, W> {
    // One place for each answer, and as many slots as weighing the structure wants, whatever they hold; the figure at the end is answered besides.
    pub fn replay(&self, slots: &mut [W], answers: &mut [Answer<W>]) -> Result<Figure, Refusal>
        ensures { Replayed W.Weight (S.Structure.meaning self.now.structure.now) self.now.calls.now slots.old slots.new answers.old answers.new result }
    {
        self.check_room(slots.len(), answers.len())?;
        Ok(self.replay_all(slots, answers))
    }

    // Where there is room for it.
    pub(crate) fn replay_all(&self, slots: &mut [W], answers: &mut [Answer<W>]) -> Figure
        requires { room_refused (S.Structure.meaning self.now.structure.now).order (length self.now.calls.now) (length slots.old) (length answers.old) ≡ None }
        ensures { Whole W.Weight (S.Structure.meaning self.now.structure.now) self.now.calls.now slots.old slots.new answers.old answers.new result }
    {
        let mut book = Book::open(self.structure);
        // Through a zip with the places, what they then hold would not be known.
        for (place, call) in self.calls.iter().enumerate() {
            answers[place] = answer(&mut book, call, slots);
        }
        book.figure()
    }

    pub(crate) fn check_room(&self, slots: usize, places: usize) -> Result<(), Refusal>
        ensures { result ≡ allowed (room_refused (S.Structure.meaning self.now.structure.now).order (length self.now.calls.now) slots places) }
    {
        if slots < slots_needed(Order::of(self.structure)) {
            return Err(AnalysisRefusal::TooFewSlots.into());
        }
        let needed = self.calls.len();
        if places < needed {
            return Err(AnalysisRefusal::TooFewPlaces { needed }.into());
        }
        Ok(())
    }
}

fn answer<W: Weight>(book: &mut Book, call: &Call<Weights<W>>, slots: &mut [W]) -> Answer<W>
    requires { slots_needed (opened book.old).order ≤ length slots.old }
    ensures opened { opened book.new ≡ opened book.old }
    ensures spared { Spared (opened book.old).order slots.old slots.new }
    ensures follows { Follows W.Weight call.now book.old book.new result }
{
    match call {
        Call::Rate { part, rating } => done(book.rate(*part, *rating)),
        Call::Price { part, price } => done(book.price(*part, *price)),
        Call::Withdraw { part } => done(book.withdraw(*part)),
        Call::PutBack { part } => done(book.put_back(*part)),
        Call::Figure => Ok(Reply::Figure(book.figure())),
        Call::Importance { part } => book.importance(*part).map(|units| Reply::Importance(units)),
        Call::Weigh(weights) => {
            let lent = weights.slots.min(slots.len());
            book.weigh(weights.up, weights.down, &mut slots[..lent])?;
            Ok(Reply::Weighed(slots[0]))
        }
    }
}

fn done<W: Weight>(res: Result<(), Refusal>) -> Answer<W>
    ensures { result ≡ done_or res }
{
    res.map(|()| Reply::Done)
}
