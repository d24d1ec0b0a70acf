// A body as the steps see it, with filters over the names of its knot.
ghost use Rattle.checks.specs.Context.{declared_at};
ghost use Rattle.filters.specs.Names.{label_at};
ghost use Rattle.filters.specs.Words.{Covers};

use checks::view::BodyView;

// A body, a filter that lacks nothing of what its knot declares, and one that lacks none of its labels.
#[derive(Clone, Copy)]
pub struct DeclaredView<'a, 'd> {
    pub body: BodyView<'a>,
    pub names: &'d [u8],
    pub labels: &'d [u8],
    pub ghost names_covered: { Covers names.now (declared_at body.file.now body.kept.numbers.now body.scope.outer body.scope.body body.scope.stitches) },
    pub ghost labels_covered: { Covers labels.now (label_at body.file.now body.kept.numbers.now body.scope.body body.scope.end) },
}
