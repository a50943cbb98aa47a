// Packed fields, read in place.
ghost use Rattle.std.specs.Prelude.{◌≡◌, length};
ghost use Rattle.messages.specs.Bits.{message_bytes};

// The bytes of a message, lent by the host, the bit to read next, and the bit of the first field that had too great a value.
#[derive(Drop)]
pub(crate) struct BitReader<'a> {
    pub(crate) bytes: &'a [u8],
    pub(crate) at: usize,
    pub(crate) offence: Option<u32>,
    ghost whole: { length bytes.now ≡ message_bytes },
}

impl BitReader<'_> {
    ghost use Rattle.std.specs.Prelude.{◌^◌, ◌<◌, [], ◌∷◌};
    ghost use Rattle.messages.specs.Bits.{field};
    ghost use Rattle.messages.specs.Layout.{up_to, reported_at, unused_bits};
    ghost use Rattle.messages.specs.Passing.{Passable, Passed};

    // The next `width` bits as a number, in one pass over the bytes that they touch.
    pub(crate) fn number(&mut self, width: usize) -> u64
        requires { Passable self.old width }
        ensures value { result ≡ field self.old.bytes.now self.old.at width }
        ensures bound { result < 2 ^ width }
        ensures passed { Passed self.old self.new width [] }
    {
        let end = self.at + width;
        let first = self.at / 8;
        let last = end.div_ceil(8);
        let mut window: u64 = 0;
        // a `for`: tried, the proof of `iter().fold(0, ..)` over the bytes did not close
        for byte in &self.bytes[first..last] {
            window = window << 8 | *byte as u64;
        }
        self.at = end;
        window >> (8 * last - end) & ((1 << width) - 1)
    }

    // The next field; a value above `greatest` is the offence of the bit `answered`, unless an earlier field offended.
    pub(crate) fn part(&mut self, width: usize, greatest: u64, answered: u32) -> u64
        requires { Passable self.old width }
        ensures value { result ≡ field self.old.bytes.now self.old.at width }
        ensures passed { Passed self.old self.new width (reported_at answered self.old.at width greatest ∷ []) }
    {
        let value = self.number(width);
        if value > greatest {
            self.offence = self.offence.or(Some(answered));
        }
        value
    }

    // The next field, which answers its own first bit where its value is above `greatest`.
    pub(crate) fn field(&mut self, width: usize, greatest: u64) -> u64
        requires { Passable self.old width }
        ensures value { result ≡ field self.old.bytes.now self.old.at width }
        ensures passed { Passed self.old self.new width (up_to self.old.at width greatest ∷ []) }
    {
        let place = self.at as u32;
        self.part(width, greatest, place)
    }

    // Unused bits: they are read as one field, and looked at one by one only where some bit is set.
    pub(crate) fn unused_bits(&mut self, width: usize)
        requires { Passable self.old width }
        ensures passed { Passed self.old self.new width (unused_bits self.old.at width) }
    {
        let start = self.at;
        if self.number(width) != 0 {
            self.at = start;
            for _ in 0..width {
                self.field(1, 0);
            }
        }
    }
}
