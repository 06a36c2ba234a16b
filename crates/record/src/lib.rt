// The 40-byte record: byte 0 a face or a number, bytes 1 to 3 zero, bytes 4 to 7 the trace number, whose
// it is, then four floats' bits, all little-endian.
#![tactic(auto)]

ghost use Rattle.std.specs.Prelude.{◌≡◌};
ghost use Rattle.buffer.specs.Bytes.{placed};
ghost use Rattle.record.specs.Inner.{head_of, with_head};

// The bytes of a record.
pub const LENGTH: usize = 40;

// The word whose bytes are the first eight of a record.
pub fn head(first: u8, whose: u32) -> u64
    ensures { result ≡ head_of first whose }
{
    u64::from(whose) * 0x1_0000_0000 + u64::from(first)
}

// What a record holds: its head, and the bits of its floats.
#[derive(Clone, Copy)]
pub struct Record {
    pub head: u64,
    pub au: u64,
    pub av: u64,
    pub bu: u64,
    pub bv: u64,
}

// The record, at a place where all of it fits; else nothing is written.
pub fn put_record(out: &mut [u8], at: usize, r: Record)
    ensures { out.new ≡ placed out.old at (with_head r.head r.au r.av r.bu r.bv) }
{
    let mut bytes = [0; LENGTH];
    buffer::put_word(&mut bytes, 0, r.head);
    buffer::put_word(&mut bytes, 8, r.au);
    buffer::put_word(&mut bytes, 16, r.av);
    buffer::put_word(&mut bytes, 24, r.bu);
    buffer::put_word(&mut bytes, 32, r.bv);
    buffer::place(out, at, &bytes);
}
