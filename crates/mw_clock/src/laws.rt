//! What is true of the tables, whoever reads them.
ghost use Rattle.mw_clock.specs.Laws.{TablesJoin};

/// Whoever reads the two files that `tables` wrote joins them to the very joint of which `generate`
/// makes its seed file.
pub fn tables_join()
    ensures { TablesJoin }
{}
