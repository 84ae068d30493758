//! Tests of the library: the reports of tables that were worked by hand.

/// The plan of the bicycle.
pub(super) const BICYCLE_PLAN: &str = "plan,P1,BIKE,0,2026-01-05,0,0,0,0,0\n\
plan,P1,BIKE,1,2026-01-12,0,0,0,0,0\nplan,P1,BIKE,2,2026-01-19,0,0,0,10,0\n\
plan,P1,BIKE,3,2026-01-26,10,0,10,0,0\nplan,P1,WHEEL,0,2026-01-05,0,0,0,0,0\n\
plan,P1,WHEEL,1,2026-01-12,0,0,0,20,0\nplan,P1,WHEEL,2,2026-01-19,20,0,20,0,0\n\
plan,P1,WHEEL,3,2026-01-26,0,0,0,0,0\n";

/// The figures of two plants, eight pieces under way between them.
pub(super) const TWO_PLANTS_CUMS: &str =
    "lane,despatch,B,A,X,100,108,108,0\nlane,schedule,A,B,X,108,130,130,0\n";

/// Their planned orders that are released in period 1 or before it, below the names of the columns.
pub(super) const TWO_PLANTS_ORDERS: &str =
    "row,plant,item,supply,quantity,release,release_date,due,due_date,late\n\
order,A,X,from:B,22,1,2026-01-12,2,2026-01-19,0\norder,B,X,buy,22,1,2026-01-12,1,2026-01-12,0\n";

/// Their plan.
pub(super) const TWO_PLANTS_PLAN: &str = "plan,A,X,0,2026-01-05,0,0,0,0,0\n\
plan,A,X,1,2026-01-12,0,0,0,22,0\nplan,A,X,2,2026-01-19,30,8,22,0,0\n\
plan,A,X,3,2026-01-26,0,0,0,0,0\nplan,B,X,0,2026-01-05,0,0,0,0,0\n\
plan,B,X,1,2026-01-12,22,0,22,22,0\nplan,B,X,2,2026-01-19,0,0,0,0,0\n\
plan,B,X,3,2026-01-26,0,0,0,0,0\n";

/// The delivery schedule between them, below the names of the columns.
pub(super) const TWO_PLANTS_SCHEDULE: &str =
    "row,kind,supplier,customer,item,period,date,quantity,cumulative\n\
schedule,opening,B,A,X,,,8,108\nschedule,call,B,A,X,1,2026-01-12,22,130\n";

/// What each of their gross requirements consists of, below the names of the columns.
pub(super) const TWO_PLANTS_PEGS: &str =
    "row,plant,item,period,source,by_plant,by_item,release,per,quantity\n\
pegs,A,X,2,demand,A,X,30,1,30\npegs,B,X,1,plant,A,X,22,1,22\n";

/// Two receipts of which the first is needed later than it comes and the second never: with five on hand, nine
/// are required in period 3.
pub(super) const EARLY: &str =
    "run,2026-01-05,7,4,,,,\nplant,P1,,,,,,\npair,P1,WHEEL,buy,lot,1,5,0\n\
demand,P1,WHEEL,3,9,,,\nreceipt,P1,WHEEL,1,4,,,\nreceipt,P1,WHEEL,2,6,,,\n";

/// What is advised of them, below the names of the columns.
pub(super) const EARLY_ADVICE: &str =
    "row,action,kind,plant,item,supplier,period,date,quantity,needed,needed_date\n\
advice,defer,receipt,P1,WHEEL,,1,2026-01-12,4,3,2026-01-26\n\
advice,cancel,receipt,P1,WHEEL,,2,2026-01-19,6,,\n";

/// What is advised of them where nothing is known behind the last period: the receipt that is not needed before may be
/// needed there.
pub(super) const EARLY_ADVICE_WITHIN: &str =
    "row,action,kind,plant,item,supplier,period,date,quantity,needed,needed_date\n\
advice,defer,receipt,P1,WHEEL,,1,2026-01-12,4,3,2026-01-26\n\
advice,beyond,receipt,P1,WHEEL,,2,2026-01-19,6,,\n";

/// Until when the requirements and the releases of two plants are whole, below the names of the columns: those of A to
/// the end, but for the releases of the lead time there, and those of B as far as A's releases.
pub(super) const TWO_PLANTS_REACH: &str =
    "row,plant,item,period,release\nreach,A,X,3,2\nreach,B,X,2,2\n";

/// A frame that is started in period 0 takes a welded part, which is made at once: three of it by a firm order. With two
/// of the part and ten tubes on hand, safety stock among them, the frames lack tubes.
pub(super) const LACKING: &str =
    "run,2026-01-05,7,3,,,,\nplant,P1,,,,,,\npair,P1,FRAME,make,lot,1,0,0\n\
pair,P1,PART,make,lot,0,2,0\npair,P1,TUBE,buy,lot,2,10,4\nbill,P1,FRAME,PART,1,,,\n\
bill,P1,FRAME,TUBE,1,,,\nbill,P1,PART,TUBE,2,,,\ndemand,P1,FRAME,1,8,,,\n\
demand,P1,TUBE,0,1,,,\nfirm,P1,PART,0,0,3,,\n";

/// What lacks parts there, below the names of the columns: one tube is demanded, and of the nine that are left eight go
/// into the frames and one into the six parts, which take twelve.
pub(super) const LACKING_SHORTAGES: &str = "row,plant,item,source,by_plant,by_item,quantity,short\n\
shortage,P1,TUBE,bill,P1,PART,12,11\n";

/// Motors that a vendor delivers in lots of 50: 2300 were received and 100 are on their way. No order is planned before
/// period 3, 20 are firmly ordered, and the vendor's figures start anew in period 3.
pub(super) const MOTORS: &str = "run,2026-01-05,7,6,,,,\nplant,WORKS,,,,,,\n\
pair,WORKS,MOTOR,buy,fixed:50,1,30,20\ndemand,WORKS,MOTOR,1,80,,,\ndemand,WORKS,MOTOR,2,60,,,\n\
demand,WORKS,MOTOR,3,90,,,\ndemand,WORKS,MOTOR,4,70,,,\nreceipt,WORKS,MOTOR,1,100,,,\n\
firm,WORKS,MOTOR,1,2,20,,\npolicy,WORKS,MOTOR,3,0,0,0,0\n\
vendor,V-MOTORS,WORKS,MOTOR,2300,100,3,\n";

/// Their schedule, below the names of the columns.
pub(super) const MOTORS_SCHEDULE: &str =
    "row,kind,supplier,customer,item,period,date,quantity,cumulative\n\
schedule,opening,V-MOTORS,WORKS,MOTOR,,,100,2400\n\
schedule,call,V-MOTORS,WORKS,MOTOR,1,2026-01-12,20,2420\n\
schedule,call,V-MOTORS,WORKS,MOTOR,2,2026-01-19,100,2520\n\
schedule,reset,V-MOTORS,WORKS,MOTOR,3,2026-01-26,,2520\n\
schedule,call,V-MOTORS,WORKS,MOTOR,3,2026-01-26,100,100\n";
