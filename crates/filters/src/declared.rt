// A filter over the names of a knot, in two parts: what it declares, its parameters and the temps of its own list; and labels. Rule 15 (variables.rs).
ghost use Rattle.std.specs.Prelude.{◌≡◌, List, ◌≤◌, length};
ghost use Rattle.records.specs.Items.{What};
ghost use Rattle.records.specs.Numbers.{item_in};
ghost use Rattle.rules.specs.Rules.{Known};
ghost use Rattle.rules.specs.Steps.{bracket, Step};
ghost use Rattle.checks.specs.Judged.{judged_by};
ghost use Rattle.checks.specs.Context.{declared_at, here_at};
ghost use Rattle.filters.specs.Words.{Covers};
ghost use Rattle.filters.specs.Names.{Declared};

use crate::Wanted;
use crate::labels::{put_labels, split_at};
use crate::view::DeclaredView;
use crate::words::{add_counted, add_items, clear_filter, lacks_word};
use checks::ScopeView;
use checks::structure::is_sort;
use items::items::item_name;
use items::runs::{KeptBody, KeptNumbers};
use records::sorts::Sort;
use rules::Rule;

// Empties the filter, and adds the parameters and the temps of the body. One without slots stays.
#[tactic(auto, using(crate::proofs::Covering::covers_none, crate::proofs::Bodies::names_put))]
fn put_names(body: &KeptBody<'_>, params: usize, filter: &mut [u8])
    requires { params ≤ length body.now.file.now }
    ensures { Covers filter.new (declared_at body.now.file.now body.now.kept.numbers.now params body.now.from body.now.to) }
{
    if filter.len() == 0 {
        return;
    }
    let file = body.file;
    clear_filter(filter);
    add_counted(filter, &file[params..]);
    add_items(filter, Wanted::Sort(Sort::Temp), file, body.items());
}

// The first part gets the parameters and the temps of the knot's body, the second its labels and those of the stitches after it.
// What the filter had before would only cost searches. One without slots stays.
pub fn put_declared(file: &[u8], kept: KeptNumbers<'_>, scope: ScopeView, filter: &mut [u8])
    requires { scope.outer ≤ length file.now }
    ensures { Declared file.now kept.entry.numbers.now scope.outer scope.body scope.stitches scope.end filter.new }
{
    if filter.len() == 0 {
        return;
    }
    let split = split_at(filter.len(), scope.stitches, scope.end);
    let own = KeptBody {
        file,
        kept,
        from: scope.body,
        to: scope.stitches,
    };
    put_names(&own, scope.outer, &mut filter[..split]);
    let whole = KeptBody {
        to: scope.end,
        ..own
    };
    put_labels(&whole, &mut filter[split..]);
}

impl DeclaredView<'_, '_> {
    // The name is forbidden in the stitch: its knot declares it, and it does not. Not searched for where the filter of names lacks it.
    #[tactic(auto, using(crate::proofs::Bodies::not_forbidden))]
    pub fn is_forbidden_in(&self, name: &[u8]) -> bool
        ensures { result ≡ (here_at self.now.body.file.now self.now.body.kept.numbers.now self.now.body.scope).forbidden name.now }
    {
        !lacks_word(self.names, name) && self.body.is_forbidden(name)
    }

    // The name of an item that is a variable: rule 15. The filter has what the knot declares.
    #[tactic(auto, using(checks::proofs::Cases::variables_judged))]
    pub fn validate_node_vars(&self, item: u32) -> Option<Rule>
        ensures { (k : Known) (before : List What) → result ≡ judged_by k (here_at self.now.body.file.now self.now.body.kept.numbers.now self.now.body.scope) (bracket Step.s17) before (item_in self.now.body.file.now item).what }
    {
        if is_sort(item, Sort::Variable) && self.is_forbidden_in(item_name(self.body.file, item)) {
            return Some(Rule::VariableForbidden);
        }
        None
    }
}
