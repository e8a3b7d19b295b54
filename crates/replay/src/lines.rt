// The lines that are printed: deliveries, and a refusal at the end.
use playback::step::Fault;
use text::output::Printer;
use text::part;
use wire::delivered::{RecordAt, record_at};

// A line for each delivered record.
#[tactic(auto, using(wire::proofs::Reading::answered_within))]
pub(crate) fn put_all(out: &mut Printer, tick: u64, records: &[u8]) {
    // Kept as a `while let`: it goes from record to record, each of which says where the next one is, and counts no index.
    let mut at = 0;
    while let Ok(record) = record_at(records, at) {
        put_delivery(out, tick, records, record);
        at = record.next;
    }
}

// TICK STREAM LENGTH[ PAYLOAD]
fn put_delivery(out: &mut Printer, tick: u64, records: &[u8], record: RecordAt) {
    out.put_parted(tick, b' ');
    out.put_parted(u64::from(record.stream.0), b' ');
    out.put_decimal(record.length as u64);
    let payload = part(records, record.payload, record.next);
    if !payload.is_empty() {
        out.put_byte(b' ');
        out.put_hex(payload);
    }
    out.put_byte(b'\n');
}

// REPLY OFFSET, of a record at fault.
pub(crate) fn put_fault(out: &mut Printer, fault: Fault) {
    out.put_parted(u64::from(fault.reply.number()), b' ');
    out.put_parted(fault.offset, b'\n');
}
