//! Tests of runs: their tables of firms, as they are read, with rows of plants, pairs, bills,
//! demand and what is on its way.

/// One plant, with two wheels to a bicycle.
pub const BICYCLE: &str = "run,2026-01-05,7,4,,,,\nplant,P1,,,,,,\npair,P1,BIKE,make,lot,1,0,0\n\
pair,P1,WHEEL,buy,lot,1,0,0\nbill,P1,BIKE,WHEEL,2,,,\ndemand,P1,BIKE,3,10,,,\n";

/// A takes X from B, with a shipment of 8 on its way.
pub const TWO_PLANTS: &str = "run,2026-01-05,7,4,,,,\nplant,A,,,,,,\nplant,B,,,,,,\n\
pair,A,X,from:B,lot,1,0,0\npair,B,X,buy,lot,0,0,0\ndemand,A,X,2,30,,,\n\
ship,B,A,X,2,8,,\ncum,B,A,X,100,,,\n";

/// The same with the shipment twice.
pub const TWO_SHIPMENTS: &str = "run,2026-01-05,7,4,,,,\nplant,A,,,,,,\nplant,B,,,,,,\n\
pair,A,X,from:B,lot,1,0,0\npair,B,X,buy,lot,0,0,0\ndemand,A,X,2,30,,,\n\
ship,B,A,X,2,8,,\nship,B,A,X,2,8,,\ncum,B,A,X,100,,,\n";

/// The two plants, with figures that start anew in period 2, in which the shipment comes.
pub const RESET_LATER: &str = "run,2026-01-05,7,4,,,,\nplant,A,,,,,,\nplant,B,,,,,,\n\
pair,A,X,from:B,lot,1,0,0\npair,B,X,buy,lot,0,0,0\ndemand,A,X,2,30,,,\n\
ship,B,A,X,2,8,,\ncum,B,A,X,100,,,\nreset,B,A,X,2,,,\n";

/// The two plants, with figures that start anew in period 1, in which the order is released.
pub const RESET_AT_RELEASE: &str = "run,2026-01-05,7,4,,,,\nplant,A,,,,,,\nplant,B,,,,,,\n\
pair,A,X,from:B,lot,1,0,0\npair,B,X,buy,lot,0,0,0\ndemand,A,X,2,30,,,\n\
ship,B,A,X,2,8,,\ncum,B,A,X,100,,,\nreset,B,A,X,1,,,\n";

/// Two plants in a ring: B's X is made at A of Y, which is made at B of W, which is bought at A.
pub const RING: &str = "run,2026-01-05,7,1,,,,\nplant,A,,,,,,\nplant,B,,,,,,\n\
pair,B,X,from:A,lot,0,0,0\npair,A,X,make,lot,0,0,0\npair,A,Y,from:B,lot,0,0,0\n\
pair,B,Y,make,lot,0,0,0\npair,B,W,from:A,lot,0,0,0\npair,A,W,buy,lot,0,0,0\n\
bill,A,X,Y,2,,,\nbill,B,Y,W,3,,,\ndemand,B,X,0,5,,,\n";

/// The ring when nothing is asked for.
pub const IDLE_RING: &str = "run,2026-01-05,7,1,,,,\nplant,A,,,,,,\nplant,B,,,,,,\n\
pair,B,X,from:A,lot,0,0,0\npair,A,X,make,lot,0,0,0\npair,A,Y,from:B,lot,0,0,0\n\
pair,B,Y,make,lot,0,0,0\npair,B,W,from:A,lot,0,0,0\npair,A,W,buy,lot,0,0,0\n\
bill,A,X,Y,2,,,\nbill,B,Y,W,3,,,\n";

/// One plant that supplies its own makes and two plants.
pub const TWO_CUSTOMERS: &str = "run,2026-01-05,7,1,,,,\nplant,S,,,,,,\nplant,C1,,,,,,\n\
plant,C2,,,,,,\npair,S,P1,make,lot,0,0,0\npair,S,P2,make,lot,0,0,0\n\
pair,S,Z,buy,fixed:50,0,0,0\npair,C1,Z,from:S,lot,0,0,0\npair,C2,Z,from:S,lot,0,0,0\n\
bill,S,P1,Z,1,,,\nbill,S,P2,Z,2,,,\ndemand,S,P1,0,10,,,\ndemand,S,P2,0,10,,,\n\
demand,C1,Z,0,15,,,\ndemand,C2,Z,0,25,,,\n";

/// No plants at all.
pub const NO_PLANTS: &str = "run,2026-01-05,7,1,,,,\n";

/// One plant that takes nothing from others.
pub const NO_LANES: &str = "run,2026-01-05,7,3,,,,\nplant,A,,,,,,\n\
pair,A,X,buy,min:20:5,0,12,5\ndemand,A,X,0,10,,,\ndemand,A,X,1,10,,,\ndemand,A,X,2,10,,,\n";

/// A takes X from B and C, 600 and 400 thousandths of each release.
pub const SHARED: &str = "run,2026-01-05,7,1,,,,\nplant,A,,,,,,\nplant,B,,,,,,\n\
plant,C,,,,,,\npair,A,X,from:B:600:C:400,lot,0,0,0\npair,B,X,buy,lot,0,0,0\n\
pair,C,X,buy,lot,0,0,0\ndemand,A,X,0,7,,,\n";

/// The same where one piece is asked for: B's part of it is none.
pub const ONE_SHARED: &str = "run,2026-01-05,7,1,,,,\nplant,A,,,,,,\nplant,B,,,,,,\n\
plant,C,,,,,,\npair,A,X,from:B:600:C:400,lot,0,0,0\npair,B,X,buy,lot,0,0,0\n\
pair,C,X,buy,lot,0,0,0\ndemand,A,X,0,1,,,\n";

/// The shared order after a shipment of 5 from C.
pub const SHARED_AFTER_SHIPMENT: &str = "run,2026-01-05,7,1,,,,\nplant,A,,,,,,\n\
plant,B,,,,,,\nplant,C,,,,,,\npair,A,X,from:B:600:C:400,lot,0,0,0\npair,B,X,buy,lot,0,0,0\n\
pair,C,X,buy,lot,0,0,0\ndemand,A,X,0,7,,,\nship,C,A,X,0,5,,\n";

/// Four plants, with shares, shipments, figures that start anew and a ring between A and B.
pub const FOUR_PLANTS: &str = "run,2026-01-05,7,4,,,,\nplant,A,,,,,,\nplant,B,,,,,,\n\
plant,C,,,,,,\nplant,D,,,,,,\npair,A,X,from:B:500:C:300:D:200,lot,1,2,1\n\
pair,A,Y,make,lot,0,0,0\npair,B,X,make,min:3:2,0,1,0\npair,B,Y,from:A:250:C:750,lot,0,0,0\n\
pair,C,X,from:D,lot,1,0,0\npair,C,Y,buy,fixed:7,0,3,0\npair,D,X,buy,periods:2,1,0,0\n\
bill,B,X,Y,2,,,\ndemand,A,X,1,11,,,\ndemand,A,X,3,6,,,\ndemand,B,Y,2,5,,,\n\
demand,C,X,3,4,,,\nship,B,A,X,1,2,,\nship,D,A,X,2,3,,\nship,D,C,X,1,1,,\nship,C,B,Y,0,2,,\n\
cum,B,A,X,40,,,\ncum,D,C,X,900,,,\nreset,B,A,X,2,,,\nreset,D,C,X,0,,,\nreset,C,B,Y,3,,,\n";

/// A takes X from B, and each plant has an open order that counts sooner than it comes: of 20 pieces up to two
/// periods, and of 6 one period.
pub const COUNTED_SOONER: &str = "run,2026-01-05,7,4,,,,\nplant,A,,,,,,\nplant,B,,,,,,\n\
pair,A,X,from:B,lot,1,0,0\npair,B,X,buy,lot,0,0,0\ndemand,A,X,1,30,,,\ndemand,A,X,2,10,,,\n\
receipt,A,X,3,20,,,\nreceipt,B,X,1,6,,,\nship,B,A,X,2,8,,\ncum,B,A,X,100,,,\n\
policy,A,X,0,2,0,0,0\npolicy,B,X,0,1,0,0,0\n";

/// A takes X from B, which makes it of Y, and each plant has a fence: no planned order of A comes before period 2,
/// and none of B before 3. A firm order of A is released before its fence.
pub const FENCED: &str = "run,2026-01-05,7,6,,,,\nplant,A,,,,,,\nplant,B,,,,,,\n\
pair,A,X,from:B,lot,1,0,0\npair,B,X,make,lot,1,0,0\npair,B,Y,buy,lot,0,0,0\nbill,B,X,Y,2,,,\n\
demand,A,X,1,10,,,\ndemand,A,X,5,20,,,\nfirm,A,X,0,2,5,,\n\
policy,A,X,2,0,0,0,0\npolicy,B,X,3,0,0,0,0\n";

/// A takes X from B, and each plant covers later periods: A one, and B two.
pub const COVERED: &str = "run,2026-01-05,7,5,,,,\nplant,A,,,,,,\nplant,B,,,,,,\n\
pair,A,X,from:B,lot,1,10,0\npair,B,X,buy,lot,0,4,0\ndemand,A,X,0,5,,,\ndemand,A,X,1,5,,,\n\
demand,A,X,2,20,,,\ndemand,A,X,3,5,,,\ndemand,B,X,3,7,,,\n\
policy,A,X,0,0,1,0,0\npolicy,B,X,0,0,2,0,0\n";

/// A takes X from B, and each plant's orders are rounded up: A's to fives, 12 at least, and B's, whose rule is
/// sevens, to fours, 18 at least.
pub const ROUNDED_UP: &str = "run,2026-01-05,7,4,,,,\nplant,A,,,,,,\nplant,B,,,,,,\n\
pair,A,X,from:B,lot,1,0,0\npair,B,X,buy,fixed:7,0,2,0\ndemand,A,X,1,7,,,\ndemand,A,X,2,9,,,\n\
demand,A,X,3,30,,,\npolicy,A,X,0,0,0,12,5\npolicy,B,X,0,0,0,18,4\n";

/// Four plants, with shares, shipments, figures that start anew, a ring between A and B, open and firm orders,
/// and policies of all pairs but those at the end of the chain. C takes X from D and supplies A with it.
pub const FOUR_PLANTS_BY_POLICY: &str = "run,2026-01-05,7,6,,,,\nplant,A,,,,,,\nplant,B,,,,,,\n\
plant,C,,,,,,\nplant,D,,,,,,\npair,A,X,from:B:500:C:300:D:200,lot,1,2,1\n\
pair,A,Y,make,lot,1,0,0\npair,A,Z,buy,lot,0,0,0\npair,B,X,make,min:3:2,1,1,0\n\
pair,B,Y,from:A:250:C:750,lot,1,0,0\npair,C,X,from:D,lot,1,0,0\npair,C,Y,buy,fixed:7,0,3,0\n\
pair,D,X,make,periods:2,1,0,0\npair,D,Z,from:A,lot,0,0,0\nbill,A,Y,Z,1,,,\nbill,B,X,Y,2,,,\n\
bill,D,X,Z,3,,,\ndemand,A,X,1,11,,,\ndemand,A,X,3,6,,,\ndemand,A,X,5,9,,,\n\
demand,B,Y,2,5,,,\ndemand,C,X,3,4,,,\nreceipt,A,X,3,4,,,\nreceipt,B,Y,4,3,,,\n\
receipt,C,X,5,2,,,\nreceipt,D,X,3,3,,,\nship,B,A,X,1,2,,\nship,D,A,X,2,3,,\nship,D,C,X,1,1,,\n\
ship,C,B,Y,0,2,,\ncum,B,A,X,40,,,\ncum,D,C,X,900,,,\nreset,B,A,X,2,,,\nreset,D,C,X,0,,,\n\
reset,C,B,Y,3,,,\nfirm,A,X,0,2,3,,\nfirm,B,X,1,1,2,,\nfirm,D,X,0,4,5,,\n\
policy,A,X,2,2,0,0,2\npolicy,A,Y,2,0,1,9,2\npolicy,B,X,0,0,0,9,2\npolicy,B,Y,3,2,1,4,3\n\
policy,C,X,3,2,1,2,0\npolicy,D,X,3,2,1,4,3\npolicy,D,Z,3,0,1,0,2\n";

/// A takes X from B, which makes it of A's Y, which is made of Z. Three of 103 Y are scrap until period 2, from which on X
/// is made without it; two Z go into a Y, and from period 1 on one into four.
pub const USED_BY_PERIOD: &str = "run,2026-01-05,7,4,,,,\nplant,A,,,,,,\nplant,B,,,,,,\n\
pair,A,X,from:B,lot,1,0,0\npair,A,Y,make,lot,0,0,0\npair,A,Z,buy,lot,0,5,0\n\
pair,B,X,make,lot,0,0,0\npair,B,Y,from:A,lot,0,0,0\nbill,A,Y,Z,2,,,\nbill,B,X,Y,1,,,\n\
demand,A,X,1,10,,,\ndemand,A,X,2,10,,,\ndemand,A,X,3,10,,,\nusage,B,X,Y,2,0,1,\n\
usage,B,X,Y,0,103,100,\nusage,A,Y,Z,1,1,4,\n";

/// A ring that goes through both plants twice: B's X is made at A of Y, which is made at B of W, which is
/// made at A of V, which is made at B of U, which is bought at A. Neither plant is done in two turns.
pub const LONG_RING: &str = "run,2026-01-05,7,1,,,,\nplant,A,,,,,,\nplant,B,,,,,,\n\
pair,B,X,from:A,lot,0,0,0\npair,A,X,make,lot,0,0,0\npair,A,Y,from:B,lot,0,0,0\n\
pair,B,Y,make,lot,0,0,0\npair,B,W,from:A,lot,0,0,0\npair,A,W,make,lot,0,0,0\n\
pair,A,V,from:B,lot,0,0,0\npair,B,V,make,lot,0,0,0\npair,B,U,from:A,lot,0,0,0\n\
pair,A,U,buy,lot,0,0,0\nbill,A,X,Y,2,,,\nbill,B,Y,W,3,,,\nbill,A,W,V,1,,,\nbill,B,V,U,2,,,\n\
demand,B,X,0,5,,,\n";

/// One plant: five articles of two parts each, all made of one stuff that is bought.
pub const FIVE_ARTICLES: &str = "run,2026-01-05,7,4,,,,\nplant,W,,,,,,\n\
pair,W,A1,make,lot,1,0,0\npair,W,A2,make,fixed:20,1,5,0\npair,W,A3,make,lot,0,0,3\n\
pair,W,A4,make,periods:2,1,0,0\npair,W,A5,make,lot,2,1,1\npair,W,B1,make,lot,1,0,0\n\
pair,W,B2,make,lot,0,10,0\npair,W,C,buy,fixed:100,1,0,0\nbill,W,A1,B1,1,,,\n\
bill,W,A1,B2,2,,,\nbill,W,A2,B1,1,,,\nbill,W,A3,B2,1,,,\nbill,W,A4,B1,3,,,\n\
bill,W,A5,B2,4,,,\nbill,W,B1,C,2,,,\nbill,W,B2,C,1,,,\ndemand,W,A1,2,30,,,\n\
demand,W,A2,1,12,,,\ndemand,W,A3,3,7,,,\ndemand,W,A4,2,9,,,\ndemand,W,A4,3,9,,,\n\
demand,W,A5,3,4,,,\n";

/// The five articles, with policies of all pairs and open orders of both parts and of the stuff.
pub const FIVE_ARTICLES_BY_POLICY: &str = "run,2026-01-05,7,4,,,,\nplant,W,,,,,,\n\
pair,W,A1,make,lot,1,0,0\npair,W,A2,make,fixed:20,1,5,0\npair,W,A3,make,lot,0,0,3\n\
pair,W,A4,make,periods:2,1,0,0\npair,W,A5,make,lot,2,1,1\npair,W,B1,make,lot,1,0,0\n\
pair,W,B2,make,lot,0,10,0\npair,W,C,buy,fixed:100,1,0,0\nbill,W,A1,B1,1,,,\n\
bill,W,A1,B2,2,,,\nbill,W,A2,B1,1,,,\nbill,W,A3,B2,1,,,\nbill,W,A4,B1,3,,,\n\
bill,W,A5,B2,4,,,\nbill,W,B1,C,2,,,\nbill,W,B2,C,1,,,\ndemand,W,A1,2,30,,,\n\
demand,W,A2,1,12,,,\ndemand,W,A3,3,7,,,\ndemand,W,A4,2,9,,,\ndemand,W,A4,3,9,,,\n\
demand,W,A5,3,4,,,\nreceipt,W,B1,3,40,,,\nreceipt,W,B2,2,30,,,\nreceipt,W,C,3,100,,,\n\
policy,W,A1,3,0,0,0,0\npolicy,W,A2,0,0,1,0,0\npolicy,W,A3,0,0,0,15,4\n\
policy,W,A4,2,0,1,0,5\npolicy,W,A5,0,0,0,9,0\npolicy,W,B1,2,2,0,30,0\n\
policy,W,B2,0,1,1,0,10\npolicy,W,C,2,2,0,150,60\n";
