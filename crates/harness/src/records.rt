// What a module dropped and delivered at a tick: how many, and records one after the other.
use text::output::Printer;
use text::part;
use wire::delivered::{RecordAt, record_at};

// Where, and when where the tick is written.
#[derive(Clone, Copy)]
pub struct Place {
    pub module: usize,
    pub tick: Option<u64>,
}

// ` TICK:M:STREAM:PAYLOAD` for each record, without the tick where it is not asked for.
pub(crate) fn put_all(out: &mut Printer, place: Place, records: &[u8]) {
    // Kept as a `while let`: it goes from record to record, each of which says where the next one is, and counts no index.
    let mut at = 0;
    while let Ok(record) = record_at(records, at) {
        put_place(out, place);
        put_record(out, records, record);
        at = record.next;
    }
}

// ` TICK:M:dropped:N`, without the tick where it is not asked for; nothing where none was dropped.
pub(crate) fn put_dropped(out: &mut Printer, place: Place, dropped: u32) {
    if dropped == 0 {
        return;
    }
    put_place(out, place);
    out.put(b"dropped:");
    out.put_decimal(u64::from(dropped));
}

fn put_place(out: &mut Printer, place: Place) {
    out.put_byte(b' ');
    if let Some(tick) = place.tick {
        out.put_parted(tick, b':');
    }
    out.put_parted(place.module as u64, b':');
}

// `:STREAM:PAYLOAD` of the first record; nothing where there is none.
pub(crate) fn put_first(out: &mut Printer, records: &[u8]) {
    if let Ok(record) = record_at(records, 0) {
        out.put_byte(b':');
        put_record(out, records, record);
    }
}

// `STREAM:PAYLOAD`
fn put_record(out: &mut Printer, records: &[u8], record: RecordAt) {
    out.put_parted(u64::from(record.stream.0), b':');
    out.put_hex(part(records, record.payload, record.next));
}
