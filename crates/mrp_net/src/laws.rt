//! The network: its laws, of sources and shares and of the pairs of a table, of routes and lanes, of edges, and of
//! vendors and days. Each is the contract of a function that does nothing.

ghost use Rattle.mrp_net.specs.SupplyLaws.{PartsAreWhole, NeedsAreWhole, PartsAreWithin, OthersHaveNoSources};
ghost use Rattle.mrp_net.specs.SupplyLaws.{OthersHaveComponents, BoughtHaveNoEdges};
ghost use Rattle.mrp_net.specs.LaneLaws.{OneSourceBringsAnItem, LaneItemsStandOnce};
ghost use Rattle.mrp_net.specs.RouteLaws.{RoutesCoverCustomers, RoutesCoverSuppliers, RoutesCoverSources};
ghost use Rattle.mrp_net.specs.SupplyLaws.{PairsAreFound};
ghost use Rattle.mrp_net.specs.EdgeLaws.{SourcePairsAreThere, LocalEdgesAreBills, LocalEdgesAreWhole};
ghost use Rattle.mrp_net.specs.EdgeLaws.{LocalDemandersAreWhole, CrossingEdgesAreSources};
ghost use Rattle.mrp_net.specs.LaneLaws.{SourcesHaveLanes, LanesComeInTwos, LanesStandOnce, LanesJoinTwoPlants};
ghost use Rattle.mrp_net.specs.PlanLaws.{GrossIsLocalAndCalled, PlansLookAtDemanders, PlainPairs, FirmsAreKept};
ghost use Rattle.mrp_net.specs.PlanLaws.{PlansAreOfAllReceipts};
ghost use Rattle.mrp_net.specs.LaneLaws.{ItemsHaveSources, OpeningsAreSupplied, IncomingComesOverLanes};
ghost use Rattle.mrp_net.specs.LaneLaws.{ShipmentsAreOfItems};
ghost use Rattle.mrp_net.specs.EdgeLaws.{OneEdgeJoinsTwoPairs, DemandersStandOnce};
ghost use Rattle.mrp_net.specs.UsageLaws.{LastRowsAreInForce, BillsAreInForceBefore, NeedsAreRoundedUp, NoneAskForNone};
ghost use Rattle.mrp_net.specs.UsageLaws.{WholeNeedsAreProducts, NeedsWithoutUsages, SourcesHaveNoUsages};
ghost use Rattle.mrp_net.specs.UsageLaws.{SourcesAskTheirShares, MostsAreTheLeast, MostsCoverNeeds};
ghost use Rattle.mrp_net.specs.UsageLaws.{BillsAskByThePiece, EdgesAskByThePiece};
ghost use Rattle.mrp_net.specs.VendorLaws.{VendorsChangeNoPlan, VendorsChangeNoEdge, VendorsChangeNoLane};
ghost use Rattle.mrp_net.specs.VendorLaws.{VendorsAreSupplied, DaysChangeNoPlan};

/// The parts of a release over the sources of a pair that is taken from plants add up to the release,
/// and so does what it asks of its suppliers: nothing is lost or made up by rounding.
pub fn parts_are_whole()
    ensures parts { PartsAreWhole }
    ensures needs { NeedsAreWhole }
{}

/// No part of a release is more than the release.
pub fn parts_are_within()
    ensures { PartsAreWithin }
{}

/// A pair that isn't taken from plants has no sources: its edges are those of its components, and a
/// bought pair has none.
pub fn others_have_no_sources()
    ensures sources { OthersHaveNoSources }
    ensures components { OthersHaveComponents }
    ensures bought { BoughtHaveNoEdges }
{}

/// No pair stands twice: the pair of the plant and the item of a pair is that pair.
pub fn pairs_are_found()
    ensures { PairsAreFound }
{}

/// Each source is on one route: an amount of each source, added up over the routes of a customer, of
/// a supplier, or of all customers, is the sum over their sources.
pub fn routes_cover_sources()
    ensures customers { RoutesCoverCustomers }
    ensures suppliers { RoutesCoverSuppliers }
    ensures sources { RoutesCoverSources }
{}

/// Over a route one source at most brings an item, so a lane has each of its items once.
pub fn one_source_brings_an_item()
    ensures routes { OneSourceBringsAnItem }
    ensures lanes { LaneItemsStandOnce }
{}

/// The plan of a pair looks at the releases of its demanders alone: two tables of plans in which
/// these are the same give the pair the same plan.
pub fn plans_look_at_demanders()
    ensures { PlansLookAtDemanders }
{}

/// A pair without a policy and firm planned orders is planned from what comes in and from its gross requirements.
pub fn plain_pairs_are_planned_by_two_rows()
    ensures { PlainPairs }
{}

/// The plan of a pair is the one from all its receipts, what comes from other plants, its policy and its firm planned
/// orders, whether its receipts may be counted sooner or not.
pub fn plans_are_of_all_receipts()
    ensures { PlansAreOfAllReceipts }
{}

/// The firm planned orders of a pair by release period, and those by due period, are all of its firm planned orders.
pub fn firm_orders_are_kept()
    ensures { FirmsAreKept }
{}

/// The pair behind a source has the source's plant, and the item of the pair that takes from it.
pub fn source_pairs_are_there()
    ensures { SourcePairsAreThere }
{}

/// The edges between pairs of one plant are those of components. Each asks for the whole release by the
/// usage in force, and its demander is a pair of that plant.
pub fn local_edges_are_whole()
    ensures bills { LocalEdgesAreBills }
    ensures edges { LocalEdgesAreWhole }
    ensures demanders { LocalDemandersAreWhole }
{}

/// The edges between plants are those of the sources, each taking its share from another plant.
pub fn crossing_edges_are_sources()
    ensures { CrossingEdgesAreSources }
{}

/// Gross requirements are the demand rows, what is asked within the plant, and what is asked over
/// the routes on which the plant is the supplier.
pub fn gross_is_local_and_called()
    ensures { GrossIsLocalAndCalled }
{}

/// Among the lanes an even place has a despatch lane, and the place after it the schedule lane of the
/// same two plants. No lane stands twice.
pub fn lanes_come_in_twos()
    ensures twos { LanesComeInTwos }
    ensures once { LanesStandOnce }
{}

/// A lane joins two different plants of the table, and has items.
pub fn lanes_join_two_plants()
    ensures { LanesJoinTwoPlants }
{}

/// Behind an item of a lane stand the source by which it is taken, and a pair of the item at either end.
pub fn items_have_sources()
    ensures { ItemsHaveSources }
{}

/// Cumulative figures begin on a lane at no more than the supply of the customer's pair, so they are
/// within every bound on supplies.
pub fn openings_are_supplied()
    ensures { OpeningsAreSupplied }
{}

/// Each source has its despatch lane and its schedule lane, and its item is on both.
pub fn sources_have_lanes()
    ensures { SourcesHaveLanes }
{}

/// What comes in at its time for a pair in a period, beside firm planned orders, is its receipts that count when they
/// come, and what arrives of its item over the despatch lanes to its plant; a lane that doesn't have the item has no
/// shipments of it.
pub fn shipments_come_over_lanes()
    ensures incoming { IncomingComesOverLanes }
    ensures items { ShipmentsAreOfItems }
{}

/// At most one edge joins two given pairs, so no pair stands twice among the demanders of another.
pub fn one_edge_joins_two_pairs()
    ensures edges { OneEdgeJoinsTwoPairs }
    ensures demanders { DemandersStandOnce }
{}

/// Of the usage rows of an edge the last that begins by a period is in force in it; before the first one the bill row is.
pub fn usages_are_in_force()
    ensures rows { LastRowsAreInForce }
    ensures bills { BillsAreInForceBefore }
{}

/// What a release asks is rounded up once, for the part of it that the edge takes: it is the least that is enough. Of whole
/// numbers it is a product, and where none goes into a parent nothing is asked.
pub fn needs_are_rounded_up()
    ensures rounded { NeedsAreRoundedUp }
    ensures products { WholeNeedsAreProducts }
    ensures none { NoneAskForNone }
{}

/// An edge without usage rows asks what its bill row says. A source has none, and is asked for its share.
pub fn edges_without_usages()
    ensures bills { NeedsWithoutUsages }
    ensures none { SourcesHaveNoUsages }
    ensures sources { SourcesAskTheirShares }
{}

/// The most pieces that an edge asks for one parent is the least whole number that is enough for one parent by its bill
/// row and by each of its usage rows, in force or not. What a release asks in a period is at most so much for each piece.
pub fn mosts_are_the_least()
    ensures least { MostsAreTheLeast }
    ensures needs { MostsCoverNeeds }
{}

/// In a table without usage rows needs are products: a component row asks its PER pieces for each parent that is released,
/// and an edge its factor for each piece of its part of the release.
pub fn tables_without_usages()
    ensures bills { BillsAskByThePiece }
    ensures edges { EdgesAskByThePiece }
{}

/// Vendors change no plan, no edge and no lane: they say who delivers what is bought, and where its schedule's figures go
/// on.
pub fn vendors_change_no_plan()
    ensures plans { VendorsChangeNoPlan }
    ensures edges { VendorsChangeNoEdge }
    ensures lanes { VendorsChangeNoLane }
{}

/// The figure and the pieces on their way of a vendor are no more than the supply of its pair, so they are within every
/// bound on supplies.
pub fn vendors_are_supplied()
    ensures { VendorsAreSupplied }
{}

/// Days change no plan: with as many periods it is the same, whatever their dates.
pub fn days_change_no_plan()
    ensures { DaysChangeNoPlan }
{}
