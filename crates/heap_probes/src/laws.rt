//! Laws of folds.

ghost use Rattle.std.specs.Prelude.{List};
ghost use Rattle.heap_probes.specs.declared.probe.Entry.{Entry};
ghost use Rattle.heap_probes.specs.Probe.{Shown};
ghost use Rattle.heap_probes.specs.Laws.{FoldsCompose};

/// Telling some entries and then others is telling them all.
pub fn folds_compose()
    ensures { (es fs : List Entry) (ps : List Shown) → FoldsCompose es fs ps }
{}
