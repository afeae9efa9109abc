//! The table of data, and every act on all of them: on those that are no arrays, and on arrays.
ghost use Rattle.std.specs.Prelude.{◌≡◌, ◌≤◌, ◌<◌, ◌^◌};
ghost use Rattle.stored_data.specs.Data.{is_rate, is_array};
ghost use Rattle.stored_data.specs.Stored.{IsPeriod, IsCount};

use std::alloc::{AllocError, Global};
use std::test::Fail;
use stored_data::{
    Act, Column, Datum, Field, StoredSet, Values, in_range, name, read_datum, settable,
};

/// The greatest value of a number of 32 bits, and of one of 64.
const SHORT: u64 = 4_294_967_295;

const LONG: u64 = 18_446_744_073_709_551_615;

/// The name of a datum, its greatest value, whether it can be set, and whether it is a rate.
type Said = (&'static str, u64, bool, bool);

/// In the order of printing.
const DATA: &[Said] = &[
    ("gpt0", SHORT, true, false),
    ("gpc0", SHORT, true, false),
    ("gpc0_rate", SHORT, false, true),
    ("conn_cnt", SHORT, true, false),
    ("conn_rate", SHORT, false, true),
    ("conn_cur", SHORT, false, false),
    ("sess_cnt", SHORT, true, false),
    ("sess_rate", SHORT, false, true),
    ("bytes_in_cnt", LONG, true, false),
    ("bytes_in_rate", SHORT, false, true),
    ("bytes_out_cnt", LONG, true, false),
    ("bytes_out_rate", SHORT, false, true),
    ("gpc1", SHORT, true, false),
    ("gpc1_rate", SHORT, false, true),
    ("gpt", SHORT, true, false),
    ("gpc", SHORT, true, false),
];

/// Whether the datum of a name has this place in the order of printing, and is said so. A datum of 32 bits takes no value above.
fn is_as_said(place: u8, said: &Said) -> bool {
    let (text, greatest, can_be_set, rate) = *said;
    let Some(datum) = read_datum(text.as_bytes()) else {
        return false;
    };
    let field = Field::plain(datum);
    (datum.place() == place)
        & (name(datum) == text)
        & (datum.greatest() == greatest)
        & in_range(field, greatest)
        & (in_range(field, LONG) == (greatest == LONG))
        & (settable(datum) == can_be_set)
        & (datum.is_rate() == rate)
}

#[test]
fn data_are_in_their_table(rt: HostRuntime) {
    let mut place = 0u8;
    for said in DATA {
        place = place.saturating_add(1);
        assert!(rt; is_as_said(place, said), "{}", said.0);
    }
}

/// The column of a datum, where it is a rate over 10 s, and where it is an array of three elements.
fn column_of(datum: Datum) -> Column
    ensures same { result.datum ≡ datum }
    ensures period { IsPeriod (is_rate result.datum) result.period }
    ensures count { IsCount (is_array result.datum) result.count }
{
    Column {
        datum,
        period: if datum.is_rate() { 10_000 } else { 0 },
        count: if datum.is_array() { 3 } else { 0 },
    }
}

/// The columns of the data of these names.
fn columns_of(alloc: Global, names: &str) -> Result<StoredSet, AllocError> {
    let mut set = StoredSet::new(alloc);
    for text in names.split_whitespace() {
        let Some(datum) = read_datum(text.as_bytes()) else {
            return Err(AllocError);
        };
        if !set.holds(datum) && !set.excludes(datum) {
            set.add(column_of(datum))?;
        }
    }
    Ok(set)
}

/// A datum, an index, which is 0 for what is no array, and a number.
type Number = (Datum, u32, u64);

/// What is shown of up to fourteen fields, in the order of printing, and 0 for what isn't shown.
type Row = [u64; 14];

/// An act on a sample at 1000 ms, its answer, and which places then show another number.
type Acted = (Act, Option<u64>, &'static [(usize, u64)]);

/// The data of a table, the numbers that are put into them first, what is shown then, and acts.
struct Tried {
    data: &'static str,
    numbers: &'static [Number],
    shown: Row,
    acts: &'static [Acted],
}

/// All data that are no arrays. That of the references, conn_cur, shows none here.
static COUNTERS: Tried = Tried {
    data: "gpt0 gpc0 gpc0_rate conn_cnt conn_rate conn_cur sess_cnt sess_rate bytes_in_cnt bytes_in_rate
        bytes_out_cnt bytes_out_rate gpc1 gpc1_rate",
    numbers: &[
        (Datum::Gpt0, 0, 7),
        (Datum::Gpc0, 0, 5),
        (Datum::ConnCnt, 0, 11),
        (Datum::SessCnt, 0, 13),
        (Datum::BytesInCnt, 0, 17),
        (Datum::BytesOutCnt, 0, 19),
        (Datum::Gpc1, 0, 3),
    ],
    shown: [7, 5, 0, 11, 0, 0, 13, 0, 17, 0, 19, 0, 3, 0],
    acts: &[
        (Act::Connection, Some(12), &[(3, 12), (4, 1)]),
        (Act::Session, Some(14), &[(6, 14), (7, 1)]),
        (Act::BytesIn(100), Some(117), &[(8, 117), (9, 100)]),
        (Act::BytesOut(200), Some(219), &[(10, 219), (11, 200)]),
        (Act::IncGpc0, Some(6), &[(1, 6), (2, 1)]),
        (Act::IncGpc1, Some(4), &[(12, 4), (13, 1)]),
        (Act::ClrGpc0, Some(5), &[(1, 0)]),
        (Act::ClrGpc1, Some(3), &[(12, 0)]),
        (Act::SetGpt0(9), Some(9), &[(0, 9)]),
    ],
};

/// Arrays of three elements, beside the rates of two of the counters: these are shown first, then the tags.
static ELEMENTS: Tried = Tried {
    data: "gpc gpc1_rate gpt gpc0_rate",
    numbers: &[
        (Datum::Gpt, 0, 7),
        (Datum::Gpt, 2, 9),
        (Datum::Gpc, 0, 5),
        (Datum::Gpc, 1, 3),
    ],
    shown: [0, 0, 7, 0, 9, 5, 3, 0, 0, 0, 0, 0, 0, 0],
    acts: &[
        (Act::IncGpc0, Some(6), &[(0, 1), (5, 6)]),
        (Act::IncGpc1, Some(4), &[(1, 1), (6, 4)]),
        (Act::IncGpc(0), Some(6), &[(5, 6)]),
        (Act::IncGpc(2), Some(1), &[(7, 1)]),
        (Act::IncGpc(3), None, &[]),
        (Act::ClrGpc0, Some(5), &[(5, 0)]),
        (Act::ClrGpc1, Some(3), &[(6, 0)]),
        (Act::SetGpt0(8), Some(8), &[(2, 8)]),
        (Act::SetGpt(1, 4), Some(4), &[(3, 4)]),
        (Act::SetGpt(3, 4), None, &[]),
    ],
};

/// Values with these numbers.
fn sample(alloc: Global, set: &StoredSet, numbers: &[Number]) -> Result<Values, AllocError> {
    let mut values = Values::zero(alloc, set)?;
    for (datum, index, number) in numbers {
        let field = Field {
            datum: *datum,
            index: *index,
        };
        values.put(field, *number);
    }
    Ok(values)
}

/// What the fields show at 1000 ms.
fn shown(set: &StoredSet, values: &Values) -> Row {
    let mut row: Row = [0; 14];
    for (place, field) in row.iter_mut().zip(set.fields()) {
        *place = values.get(*field, 1000).unwrap_or(0);
    }
    row
}

/// What is shown, with other numbers in these places.
fn with(mut shown: Row, changes: &[(usize, u64)]) -> Row {
    for (place, number) in changes {
        if let Some(shown) = shown.get_mut(*place) {
            *shown = *number;
        }
    }
    shown
}

/// Whether an act on a copy of a sample is answered and then shown so.
fn acts_so(set: &StoredSet, before: &Values, was: Row, acted: &Acted) -> bool {
    match before.copy() {
        Ok(mut values) => {
            (values.act(1000, acted.0) == acted.1) & (shown(set, &values) == with(was, acted.2))
        }
        Err(_) => false,
    }
}

#[test]
fn acts_are_answered_and_shown(rt: HostRuntime) -> Result<(), Fail> {
    for tried in [&COUNTERS, &ELEMENTS] {
        let set = columns_of(rt.alloc(), tried.data)?;
        let before = sample(rt.alloc(), &set, tried.numbers)?;
        assert!(rt; shown(&set, &before) == tried.shown);
        for acted in tried.acts {
            assert!(rt; acts_so(&set, &before, tried.shown, acted), "{:?}", acted.0);
        }
    }
    Ok(())
}

/// A rate, the counter beside it, an act that counts in both, and by how much.
type Counting = (Datum, Datum, Act, u64);

const COUNTINGS: &[Counting] = &[
    (Datum::Gpc0Rate, Datum::Gpc0, Act::IncGpc0, 1),
    (Datum::Gpc1Rate, Datum::Gpc1, Act::IncGpc1, 1),
    (Datum::ConnRate, Datum::ConnCnt, Act::Connection, 1),
    (Datum::SessRate, Datum::SessCnt, Act::Session, 1),
    (Datum::BytesInRate, Datum::BytesInCnt, Act::BytesIn(4), 4),
    (Datum::BytesOutRate, Datum::BytesOutCnt, Act::BytesOut(5), 5),
];

/// What values of a rate alone answer and show: an act, which counts though its counter isn't stored; puts, clears and the tag,
/// which count in no rate; and then the rate at once, after half of the next period, and after the whole of it.
fn alone(values: &mut Values, counting: &Counting) -> [Option<u64>; 7] {
    let (rate, counter) = (Field::plain(counting.0), Field::plain(counting.1));
    let counted = values.act(1000, counting.2);
    values.put(rate, 77);
    values.put(counter, 77);
    [
        counted,
        values.act(1000, Act::ClrGpc0),
        values.act(1000, Act::SetGpt0(3)),
        values.get(counter, 1000),
        values.get(rate, 1000),
        values.get(rate, 15_000),
        values.get(rate, 20_000),
    ]
}

/// Whether values of a rate alone answer and show that.
fn counts_alone(alloc: Global, counting: &Counting) -> Result<bool, AllocError> {
    let set = columns_of(alloc, name(counting.0))?;
    let mut values = Values::zero(alloc, &set)?;
    let rates = [Some(counting.3), Some(counting.3 / 2), Some(0)];
    let wanted = [None, None, None, None, rates[0], rates[1], rates[2]];
    Ok(alone(&mut values, counting) == wanted)
}

/// Whether an act on a counter that has its greatest value leaves it there, and counts in the rate.
fn stops(before: &Values, counting: &Counting) -> bool {
    let (rate, counter) = (Field::plain(counting.0), Field::plain(counting.1));
    let greatest = Some(counting.1.greatest());
    let Ok(mut values) = before.copy() else {
        return false;
    };
    values.put(counter, counting.1.greatest());
    (values.act(2000, counting.2) == greatest)
        & (values.get(counter, 2000) == greatest)
        & (values.get(rate, 2000) == Some(counting.3))
}

#[test]
fn rates_count_alone_and_counters_stop(rt: HostRuntime) -> Result<(), Fail> {
    let set = columns_of(rt.alloc(), COUNTERS.data)?;
    let before = Values::zero(rt.alloc(), &set)?;
    for counting in COUNTINGS {
        assert!(rt; counts_alone(rt.alloc(), counting)?, "{:?}", counting.0);
        assert!(rt; stops(&before, counting), "{:?}", counting.1);
    }
    Ok(())
}
