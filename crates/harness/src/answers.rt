// What several lines answer.
use text::output::Printer;
use wire::reply::Reply;

pub(crate) fn put_reply(out: &mut Printer, reply: Reply) {
    out.put_decimal(u64::from(reply.number()));
}

pub(crate) fn put_dead(out: &mut Printer) {
    out.put(b"dead");
}

// What a set up or a request answers; where nobody does, the module is dead.
pub(crate) fn put_answer(out: &mut Printer, answer: Option<Result<(), Reply>>) {
    match answer {
        Some(Ok(())) => put_reply(out, Reply::Done),
        Some(Err(reply)) => put_reply(out, reply),
        None => put_dead(out),
    }
}
