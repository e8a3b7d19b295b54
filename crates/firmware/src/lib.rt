// What the modules' C firmware calls: plain numbers in and out, for every value of each. A reply is
// answered as the rules paper's number, and a value is 0 unless its reply is 0. Structs and numbers stay as C has them.
#![tactic(auto)]

ghost use Rattle.std.specs.Prelude.{◌≡◌};
ghost use Rattle.wire.specs.Replies.{number_of};
ghost use Rattle.wire.specs.Identifiers.{join, split};
ghost use Rattle.wire.specs.Delivered.{record_length};
ghost use Rattle.firmware.specs.Boundary.{settings_reply};

use crate::answers::number_of;
use wire::delivered::record_length;
use wire::ids::{BusId, Stream};
use wire::reply::Reply;
use wire::settings::legal_numbers;

mod answers;
pub mod calls;
pub mod judged;
pub mod lent;

// The reply to joining a stream and a code.
#[tactic(auto, using(crate::proofs::Answering::number_so))]
#[unsafe(no_mangle)]
pub extern "C" fn kosmydore_join_reply(stream: u32, code: u32) -> u32
    ensures { result ≡ number_of (join (record { 0 = stream }) code).reply }
{
    number_of(&Stream(stream).join(code))
}

// The bus identifier of a stream and a code.
#[tactic(auto, using(crate::proofs::Refusals::join_or))]
#[unsafe(no_mangle)]
pub extern "C" fn kosmydore_join(stream: u32, code: u32) -> u32
    ensures { result ≡ (join (record { 0 = stream }) code).id.0 }
{
    let id = Stream(stream).join(code).unwrap_or(BusId(0));
    id.0
}

// The reply to splitting a bus identifier.
#[tactic(auto, using(crate::proofs::Answering::number_so))]
#[unsafe(no_mangle)]
pub extern "C" fn kosmydore_split_reply(id: u32) -> u32
    ensures { result ≡ number_of (split (record { 0 = id })).reply }
{
    number_of(&BusId(id).split())
}

// The stream of a bus identifier.
#[tactic(auto, using(crate::proofs::Refusals::split_or))]
#[unsafe(no_mangle)]
pub extern "C" fn kosmydore_split_stream(id: u32) -> u32
    ensures { result ≡ (split (record { 0 = id })).stream.0 }
{
    let (stream, _) = BusId(id).split().unwrap_or((Stream(0), 0));
    stream.0
}

// The code of a bus identifier.
#[tactic(auto, using(crate::proofs::Refusals::split_or))]
#[unsafe(no_mangle)]
pub extern "C" fn kosmydore_split_code(id: u32) -> u32
    ensures { result ≡ (split (record { 0 = id })).code }
{
    let (_, code) = BusId(id).split().unwrap_or((Stream(0), 0));
    code
}

// The reply to the settings of a stream.
#[tactic(auto, unfolding(crate::specs::Boundary::settings_reply))]
#[unsafe(no_mangle)]
pub extern "C" fn kosmydore_settings_reply(
    stream: u32,
    role: u32,
    class: u32,
    data_reach: u32,
    confirm_delay: u32,
    abort_reach: u32,
    deliver_delay: u32,
) -> u32
    ensures { result ≡ number_of (settings_reply stream role class data_reach confirm_delay abort_reach deliver_delay) }
{
    if legal_numbers(
        stream,
        role,
        class,
        data_reach,
        confirm_delay,
        abort_reach,
        deliver_delay,
    ) {
        return Reply::Done.number();
    }
    Reply::BadSettings.number()
}

// The reply to asking for the length of the record of a payload of this length.
#[tactic(auto, using(crate::proofs::Answering::number_so))]
#[unsafe(no_mangle)]
pub extern "C" fn kosmydore_record_length_reply(payload_length: u32) -> u32
    ensures { result ≡ number_of (record_length payload_length).reply }
{
    number_of(&record_length(payload_length))
}

// The length of the record of a payload of this length.
#[tactic(auto, using(crate::proofs::Refusals::record_length_or))]
#[unsafe(no_mangle)]
pub extern "C" fn kosmydore_record_length(payload_length: u32) -> u32
    ensures { result ≡ (record_length payload_length).length }
{
    record_length(payload_length).unwrap_or(0)
}
