// Whether one set of parts is a minimal path or a minimal cut of a structure.
ghost use Rattle.std.specs.Prelude.{◌≡◌, ◌%◌, ◌^◌, ◌<◌};
ghost use Rattle.std.specs.List.{list_any};
ghost use Rattle.analysis.specs.Minimal.{does, minimal, rising, spare};

use crate::role::Role;
use structure::order::Order;
use structure::structure::Structure;

// Digits of `set` from the order on are ignored.
pub fn is_minimal<S: Structure>(structure: &S, role: Role, set: u32) -> bool
    ensures { result ≡ minimal role (S.Structure.meaning structure.now) (set % 2 ^ (S.Structure.meaning structure.now).order) }
{
    let set = Order::of(structure).known(set);
    let task = Task { structure, role };
    task.is_done_by(set) && !task.has_spare(set)
}

// A path's task is to make the structure work, a cut's to stop it.
#[derive(Drop)]
struct Task<'a, S> {
    structure: &'a S,
    role: Role,
}

// That a set has no digits from the order on is asked three times: as a field it would be built anew for each part.
impl<S: Structure> Task<'_, S> {
    fn is_done_by(&self, set: u32) -> bool
        requires { set < 2 ^ (S.Structure.meaning self.now.structure.now).order }
        ensures { result ≡ does self.now.role (S.Structure.meaning self.now.structure.now) set }
    {
        match self.role {
            Role::Path => self.structure.works(set),
            Role::Cut => !self.structure.works(Order::of(self.structure).reverse(set)),
        }
    }

    fn has_spare(&self, set: u32) -> bool
        requires { set < 2 ^ (S.Structure.meaning self.now.structure.now).order }
        ensures { result ≡ list_any (spare self.now.role (S.Structure.meaning self.now.structure.now) set) (rising 0 (S.Structure.meaning self.now.structure.now).order) }
    {
        (0..self.structure.order()).any(|part| self.can_spare(set, part))
    }

    fn can_spare(&self, set: u32, part: usize) -> bool
        requires { (set < 2 ^ (S.Structure.meaning self.now.structure.now).order) × (part < (S.Structure.meaning self.now.structure.now).order) }
        ensures { result ≡ spare self.now.role (S.Structure.meaning self.now.structure.now) set part }
    {
        (set >> part) % 2 == 1 && self.is_done_by(set - (1 << part))
    }
}
