// Sound and damaged batches.
use crate::reader::Reader;
use crate::request::*;
use crate::unread::*;
use crate::whole::read_all;
use figures::refusal::*;

// One record of each kind: bid, ask, market bid, market ask, withdrawal.
const SAMPLE: &[u8; 59] = b"\
    OB\x00\x00\x00\x00\x65\x00\x00\x13\x88\x00\x00\x11\x94\
    OA\x01\x00\x00\x00\x65\x00\x00\x0B\xB8\xFF\xFF\xFF\x06\
    MB\x02\x00\x00\x00\x66\x00\x00\x00\xC8\
    MA\xFF\xFF\xFF\xFF\xFF\xFF\xFF\xFF\xFF\
    OW\x03\xEE\x6B\x28\x00";

// Where its records begin.
const STARTS: [usize; 5] = [0, 15, 30, 41, 52];

fn terms(member: u8, hour: u32, energy: u32) -> Terms {
    Terms {
        member,
        hour,
        energy,
    }
}

fn stops(reason: Reason) -> Result<(), Unread> {
    Err(reason.refused_by(Part::Reader).into())
}

#[test]
fn every_kind_is_read(rt: HostRuntime) {
    let mut entries = Vec::new(rt.alloc());
    assert_eq!(rt; read_all(SAMPLE, &mut entries), Ok(()));
    let requests = [
        Request::Bid {
            terms: terms(0, 101, 5000),
            limit: 4500,
        },
        Request::Ask {
            terms: terms(1, 101, 3000),
            limit: -250,
        },
        Request::MarketBid {
            terms: terms(2, 102, 200),
        },
        Request::MarketAsk {
            terms: terms(255, u32::MAX, u32::MAX),
        },
        Request::Withdrawal {
            member: 3,
            serial: 4_000_000_000,
        },
    ];
    assert_eq!(rt; entries.len(), 5);
    for ((entry, place), request) in entries.iter().zip(&STARTS).zip(&requests) {
        assert_eq!(rt; entry.place, *place);
        assert_eq!(rt; entry.item, *request);
    }
}

#[test]
fn every_prefix_ends_at_a_record_or_is_cut_short(rt: HostRuntime) {
    let mut entries = Vec::new(rt.alloc());
    let mut start = 0;
    for n in 0..SAMPLE.len() {
        if STARTS.contains(&n) {
            start = n;
            assert_eq!(rt; read_all(&SAMPLE[..n], &mut entries), Ok(()));
        } else {
            let cut = stops(Reason::CutShort { place: start });
            assert_eq!(rt; read_all(&SAMPLE[..n], &mut entries), cut);
        }
    }
}

#[test]
fn a_wrong_mark_stops_at_its_record(rt: HostRuntime) {
    let mut entries = Vec::new(rt.alloc());
    for (i, &place) in STARTS.iter().enumerate() {
        assert!(rt; place < 58);
        for at in place..place + 2 {
            let mut batch = *SAMPLE;
            batch[at] = 0x43;
            let end = read_all(&batch, &mut entries);
            assert_eq!(rt; end, stops(Reason::UnknownMark { place }));
            assert_eq!(rt; entries.len(), i);
        }
    }
}

#[test]
fn a_single_byte_is_cut_short_whatever_it_is(rt: HostRuntime) {
    let mut entries = Vec::new(rt.alloc());
    for byte in 0..=255u8 {
        let end = read_all(&[byte], &mut entries);
        assert_eq!(rt; end, stops(Reason::CutShort { place: 0 }));
    }
}

#[test]
fn an_unknown_mark_is_told_before_the_length(rt: HostRuntime) {
    let mut entries = Vec::new(rt.alloc());
    let end = read_all(&[0x4F, 0x43], &mut entries);
    assert_eq!(rt; end, stops(Reason::UnknownMark { place: 0 }));
    let end = read_all(&[0x4F, 0x57], &mut entries);
    assert_eq!(rt; end, stops(Reason::CutShort { place: 0 }));
}

#[test]
fn marks_inside_fields_are_fields(rt: HostRuntime) {
    let mut entries = Vec::new(rt.alloc());
    let batch = [
        0x4F, 0x42, 0x4F, 0x42, 0x4F, 0x41, 0x4D, 0x42, 0x4D, 0x41, 0x4F, 0x57, 0x4F, 0x42, 0x4F,
    ];
    assert_eq!(rt; read_all(&batch, &mut entries), Ok(()));
    assert!(rt; entries.len() == 1);
    let item = Request::Bid {
        terms: terms(0x4F, 0x424F_414D, 0x424D_414F),
        limit: 0x574F_424F,
    };
    assert_eq!(rt; entries[0], Entry { place: 0, item });
}

#[test]
fn a_refusal_leaves_the_reader_where_it_stood(rt: HostRuntime) {
    let mut reader = Reader::new(&[0x4F, 0x57, 1, 0, 0, 0, 2, 0x4F, 0x58]);
    assert!(rt; reader.next().is_ok());
    for _ in 0..3 {
        let refusal = Reason::UnknownMark { place: 7 }.refused_by(Part::Reader);
        assert_eq!(rt; reader.next().err(), Some(refusal));
    }
}
