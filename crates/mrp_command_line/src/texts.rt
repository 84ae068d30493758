//! The command line: the texts of its help.

pub(crate) const ABOUT: &str =
    "Plans the material of all plants of a firm. The table is read from standard\n\
input, and the report is written to standard output.";

pub(crate) const AFTER: &str =
    "A table is comma-separated rows of eight fields, kind by kind:\n\n  \
run,FIRST,DAYS,PERIODS,,,,\n  \
plant,PLANT,,,,,,\n  \
pair,PLANT,ITEM,SUPPLY,RULE,LEAD,ONHAND,SAFETY\n  \
bill,PLANT,PARENT,COMPONENT,PER,,,\n  \
demand,PLANT,ITEM,PERIOD,QUANTITY,,,\n  \
receipt,PLANT,ITEM,PERIOD,QUANTITY,,,\n  \
ship,FROM,TO,ITEM,PERIOD,QUANTITY,,\n  \
cum,FROM,TO,ITEM,FIGURE,,,\n  \
reset,FROM,TO,ITEM,PERIOD,,,\n  \
firm,PLANT,ITEM,START,DUE,QUANTITY,,\n  \
policy,PLANT,ITEM,FENCE,SOONER,COVER,LEAST,MULTIPLE\n  \
usage,PLANT,PARENT,COMPONENT,PERIOD,PER,BASE,\n  \
vendor,VENDOR,PLANT,ITEM,FIGURE,TRANSIT,RESET,\n  \
day,PERIOD,DATE,,,,,\n  \
end,ROWS,,,,,,\n\n\
SUPPLY is make, buy, from:PLANT, or from: with two to four plants and their\n\
shares in thousandths, as from:B:600:C:400. RULE is lot, fixed:Q, periods:K or\n\
min:M:K. Periods count from 0. ROWS counts the rows before the end row, which\n\
may be left out.\n\n\
Statuses: 0 done, 1 the table or the question is refused, 2 the words are\n\
refused, 3 reading, writing, memory or a thread failed. After 1 and 3 one line\n\
on standard error says why.";

pub(crate) const PLAN: &str = "Write the plan of each pair, period by period, and the late orders";

pub(crate) const PLAN_LONG: &str =
    "Writes the plan: for each pair of a plant and an item, period by period, a row\n\n  \
plan,PLANT,ITEM,PERIOD,DATE,GROSS,INCOMING,ORDER,RELEASE,AVAILABLE\n\n\
and then, for each planned order that can't come in time, a row\n\n  \
late,PLANT,ITEM,PERIOD,QUANTITY,BY";

pub(crate) const PLAN_EXAMPLE: &str = "Example: mrp plan < bicycle.csv > bicycle.plan.csv";

pub(crate) const CHECK: &str = "Write the low-level code of each pair";

pub(crate) const CHECK_LONG: &str =
    "Writes the low-level code of each pair: the length of the longest chain of\n\
demanders above it. Refuses a table with a loop, or with quantities above 10^15.\n\n  \
code,PLANT,ITEM,CODE\n\n\
With --reach its rows say until which period the gross requirements of a pair,\n\
and until which its releases are whole, whatever is wanted behind the horizon:\n\
none where no period is.\n\n  \
reach,PLANT,ITEM,PERIOD,RELEASE";

pub(crate) const CHECK_EXAMPLE: &str = "Examples: mrp check < bicycle.csv\n          \
mrp check --reach < firm.csv";

pub(crate) const CHECK_REACH: &str = "Write until which period each pair is whole, and no codes";

pub(crate) const PEG: &str = "Write what the gross requirement of a pair in a period consists of";

pub(crate) const PEG_LONG: &str =
    "Writes what the gross requirement of a pair in a period consists of, a row for\n\
each source: demand for its own demand rows, bill for a parent at its plant,\n\
plant for the item at a plant that takes it from this one.\n\n  \
peg,SOURCE,PLANT,ITEM,RELEASE,PER,QUANTITY";

pub(crate) const PEG_EXAMPLE: &str = "Example: mrp peg P1 WHEEL 2 < bicycle.csv";

pub(crate) const CUMS: &str = "Write the cumulative figures of the lanes between plants";

pub(crate) const CUMS_LONG: &str =
    "Writes the cumulative figures of each item on each lane between two plants, once\n\
all plants have planned: a despatch lane carries what its sender ships, a\n\
schedule lane what its sender calls for. TRANSIT is SHIPPED less RECEIVED.\n\n  \
lane,KIND,SENDER,RECEIVER,ITEM,OPENING,SHIPPED,RECEIVED,TRANSIT";

pub(crate) const CUMS_EXAMPLE: &str = "Example: mrp cums < firm.csv";

pub(crate) const ORDERS: &str =
    "Write planned and firm orders, with releases and how they are supplied";

pub(crate) const ORDERS_LONG: &str =
    "Writes planned and firm orders of each pair, those alone that are released in\n\
PERIOD or before it where it is given. SUPPLY is that of the pair's row of the\n\
table, and LATE how many periods are missing. A firm order's row begins with firm.\n\n  \
order,PLANT,ITEM,SUPPLY,QUANTITY,RELEASE,RELEASE_DATE,DUE,DUE_DATE,LATE";

pub(crate) const ORDERS_EXAMPLE: &str = "Example: mrp orders --until 0 < bicycle.csv";

pub(crate) const ORDERS_UNTIL: &str =
    "The last period of a release, 0 to 103, or with --large 519; without it all orders";

pub(crate) const SCHEDULE: &str = "Write the delivery schedules of plants and vendors";

pub(crate) const SCHEDULE_LONG: &str =
    "Writes the delivery schedules, item by item: what is in transit (opening), then\n\
each delivery that is called for (call), and where figures start anew (reset).\n\
Those between plants come first, then those of vendors. --from keeps the\n\
schedules of one supplier, a plant or a vendor, --to those of one customer\n\
plant, and both together those between the two. CUMULATIVE is the figure in\n\
force, at a reset the one that it closes.\n\n  \
schedule,KIND,SUPPLIER,CUSTOMER,ITEM,PERIOD,DATE,QUANTITY,CUMULATIVE";

pub(crate) const SCHEDULE_EXAMPLE: &str = "Example: mrp schedule --from BRN --to HAM < firm.csv";

pub(crate) const PEGS: &str = "Write what each gross requirement of the plan consists of";

pub(crate) const PEGS_LONG: &str =
    "Writes the pegging of the whole plan: what peg writes, for each pair and period.\n\n  \
pegs,PLANT,ITEM,PERIOD,SOURCE,BY_PLANT,BY_ITEM,RELEASE,PER,QUANTITY";

pub(crate) const PEGS_EXAMPLE: &str = "Example: mrp pegs --header < bicycle.csv";

pub(crate) const ADVICE: &str = "Write which open orders to expedite, to defer and to cancel";

pub(crate) const ADVICE_LONG: &str =
    "Writes the open orders, receipts, shipments and firm orders, that are needed in\n\
another period than they come in: ACTION is expedite, defer, or cancel, the last\n\
where what is there and comes before is enough in all periods. It changes no\n\
plan. --until leaves out the orders that come after PERIOD, and no other.\n\
--reach writes beyond, with NEEDED and NEEDED_DATE empty, in the place of a\n\
cancel or defer that the horizon makes, which a longer one may change, and\n\
leaves out orders that come beyond it, unless they are needed before.\n\n  \
advice,ACTION,KIND,PLANT,ITEM,SUPPLIER,PERIOD,DATE,QUANTITY,NEEDED,NEEDED_DATE";

pub(crate) const ADVICE_EXAMPLE: &str = "Example: mrp advice --until 3 < firm.csv";

pub(crate) const ADVICE_UNTIL: &str =
    "The last period in which an open order comes, 0 to 103, or with --large 519; without it all";

pub(crate) const ADVICE_REACH: &str = "Tell messages that the horizon makes as beyond it";

pub(crate) const SHORTAGES: &str = "Write which requirements of period 0 lack parts";

pub(crate) const SHORTAGES_LONG: &str =
    "Writes what of the gross requirements of period 0 isn't there, so that no order is\n\
started that lacks parts: the terms of a pair, in the order of pegs, take of what is\n\
on hand, safety stock too, and comes in period 0, and each that gets less than\n\
QUANTITY has a row. SHORT is what it lacks. Planned and firm orders aren't there, but\n\
for those due in period 0 of a made pair without lead time and fence, whose own\n\
components say what they lack.\n\n  \
shortage,PLANT,ITEM,SOURCE,BY_PLANT,BY_ITEM,QUANTITY,SHORT";

pub(crate) const SHORTAGES_EXAMPLE: &str = "Example: mrp shortages < bicycle.csv";
