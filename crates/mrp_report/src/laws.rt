//! Reports of plan, late orders, orders, pegs, codes and figures, laws. Each is the contract
//! of a function that does nothing.
ghost use Rattle.mrp_report.specs.Laws.{PlanIsReadBack, LateOrdersAreReadBack, PlanWithLateOrdersIsReadBack};
ghost use Rattle.mrp_report.specs.Laws.{TermsAreReadBack, PegsAreReadBack, CodesAreReadBack, FiguresAreReadBack};
ghost use Rattle.mrp_report.specs.Laws.{OrdersAreReadBack};

/// What csv reads of a report is exactly the fields that its rows are made of, row by row, and none
/// of them needs quotes; so too of the plan rows and the late orders together, and of the others with the
/// names of their columns above them.
pub fn reports_are_read_back()
    ensures plan { PlanIsReadBack }
    ensures late { LateOrdersAreReadBack }
    ensures together { PlanWithLateOrdersIsReadBack }
    ensures pegs { TermsAreReadBack }
    ensures pegging { PegsAreReadBack }
    ensures codes { CodesAreReadBack }
    ensures lanes { FiguresAreReadBack }
    ensures orders { OrdersAreReadBack }
{}
