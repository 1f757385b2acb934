// Drawings made from the minimal sets of any structure, that work as it does.
ghost use Rattle.structure.specs.Drawings.{drawing};
ghost use Rattle.structure.specs.Kinds.{path_list, cut_list};
ghost use Rattle.analysis.specs.declared.role.Role.TheVariants.{Path, Cut};
ghost use Rattle.analysis.specs.Minimal.{minimal_sets};
ghost use Rattle.analysis.specs.Redrawing.{Drawn, WorksAs};

use crate::listing_of::ListingOf;
use crate::role::Role;
use structure::cut_list::CutList;
use structure::path_list::PathList;
use structure::refusal::Refusal;
use structure::set_list::SetList;
use structure::structure::Structure;

// The path list of all minimal paths. It and the next are a line each over `draw`: one for both would need a trait whose law is the theorem of each.
pub fn redraw_paths<S: Structure>(structure: &S) -> Result<PathList, Refusal>
    ensures drawn { Drawn (λ l. drawing l.list) (S.Structure.meaning structure.now).order (minimal_sets Path (S.Structure.meaning structure.now)) result }
    ensures works { WorksAs (λ l. path_list (drawing l.list)) (S.Structure.meaning structure.now) result }
{
    draw(structure, Role::Path).map(PathList::of)
}

// The cut list of all minimal cuts.
pub fn redraw_cuts<S: Structure>(structure: &S) -> Result<CutList, Refusal>
    ensures drawn { Drawn (λ l. drawing l.list) (S.Structure.meaning structure.now).order (minimal_sets Cut (S.Structure.meaning structure.now)) result }
    ensures works { WorksAs (λ l. cut_list (drawing l.list)) (S.Structure.meaning structure.now) result }
{
    draw(structure, Role::Cut).map(CutList::of)
}

fn draw<S: Structure>(structure: &S, role: Role) -> Result<SetList, Refusal>
    ensures { Drawn drawing (S.Structure.meaning structure.now).order (minimal_sets role (S.Structure.meaning structure.now)) result }
{
    let mut list = SetList::new();
    list.start(structure.order())?;
    for set in ListingOf::new(structure, role) {
        list.add(set)?;
    }
    Ok(list)
}
