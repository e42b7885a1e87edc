// Examples that are run: worked by hand, or answered by other software.
#![tactic(auto)]

#[cfg(test)]
mod tests {
    use format::Coordinate;
    use keys::{AscendingRun, Numbered, Numbers, find, numbers_ascend, place_of};
    use sink::{Buffer, ByteCounter, Checksum, Full, Sink};
    use std::process::Abort;
    use std::test::Fail;
    use whole::{directory_entry, length_of, write_into, write_to_slice};
    use write::{Bytes, FontWrite, Uint24};

    const TABLE: [u8; 9] = [0x81, 0x02, 0x43, 0xF4, 0x95, 0x06, 0xC7, 0x08, 0xE9];

    // Checksums of the first 0 to 9 bytes of TABLE: words of four bytes added by hand.
    const SUMS: [u32; 10] = [
        0x00000000, 0x81000000, 0x81020000, 0x81024300, 0x810243F4, 0x160243F4, 0x160843F4,
        0x16090AF4, 0x16090AFC, 0xFF090AFC,
    ];

    #[test]
    fn checksums_of_lengths_0_to_9(rt: HostRuntime) -> Result<(), Fail> {
        for (n, sum) in SUMS.iter().enumerate() {
            let Some(part) = TABLE.get(0..n) else {
                return Err(Fail::new("no such part"));
            };
            let Ok(entry) = directory_entry(&Bytes(part)) else {
                return Err(Fail::new("refused"));
            };
            assert_eq!(rt; entry.checksum, *sum);
            assert_eq!(rt; entry.length as usize, n);
        }
        Ok(())
    }

    // The bytes of a value, in the first of eight; the others stay 0xEE.
    fn shown<T: FontWrite>(value: &T) -> Result<[u8; 8], Fail> {
        let mut out = [0xEEu8; 8];
        match write_to_slice(value, &mut out) {
            Ok(_) => Ok(out),
            Err(_) => Err(Fail::new("refused")),
        }
    }

    #[test]
    fn numbers_have_the_most_significant_byte_first(rt: HostRuntime) -> Result<(), Fail> {
        assert_eq!(rt;
            shown(&(0x12u8, 0x3456u16, 0x789ABCDEu32))?,
            [0x12, 0x34, 0x56, 0x78, 0x9A, 0xBC, 0xDE, 0xEE]
        );
        assert_eq!(rt;
            shown(&(-1i8, -2i16, -3i32))?,
            [0xFF, 0xFF, 0xFE, 0xFF, 0xFF, 0xFF, 0xFD, 0xEE]
        );
        assert_eq!(rt;
            shown(&(i8::MIN, i16::MIN, i32::MIN))?,
            [0x80, 0x80, 0x00, 0x80, 0, 0, 0, 0xEE]
        );
        Ok(())
    }

    #[test]
    fn numbers_of_24_bits(rt: HostRuntime) -> Result<(), Fail> {
        let Some(n) = Uint24::checked_new(0xFEDCBA) else {
            return Err(Fail::new("none"));
        };
        assert_eq!(rt;
            shown(&n)?,
            [0xFE, 0xDC, 0xBA, 0xEE, 0xEE, 0xEE, 0xEE, 0xEE]
        );
        assert_eq!(rt; n.to_u32(), 0xFEDCBA);
        assert!(rt; Uint24::checked_new(0xFFFFFF).is_some());
        assert!(rt; Uint24::checked_new(0x1000000).is_none());
        Ok(())
    }

    #[test]
    fn parts_stand_end_to_end(rt: HostRuntime) -> Result<(), Fail> {
        let none: Option<u16> = None;
        assert_eq!(rt;
            shown(&(Some(1u16), none, [2u8, 3u8], [4u16].as_slice()))?,
            [0, 1, 2, 3, 0, 4, 0xEE, 0xEE]
        );
        assert_eq!(rt;
            shown(&(Bytes(&[7, 8]), 9u8))?,
            [7, 8, 9, 0xEE, 0xEE, 0xEE, 0xEE, 0xEE]
        );
        Ok(())
    }

    #[test]
    fn a_buffer_takes_what_fits_exactly(rt: HostRuntime) {
        let mut room = [0u8; 6];
        let mut buffer = Buffer::new(&mut room);
        assert!(rt; write_into(&0x01020304u32, &mut buffer).is_ok());
        assert!(rt; write_into(&0x05060708u32, &mut buffer).is_err());
        assert_eq!(rt; buffer.count(), 4);
        assert!(rt; write_into(&0x0506u16, &mut buffer).is_ok());
        assert!(rt; buffer.put(7).is_err());
        assert_eq!(rt; buffer.written(), [1, 2, 3, 4, 5, 6].as_slice());
        assert_eq!(rt; Full.number(), 14);
    }

    #[test]
    fn a_slice_too_short_stays(rt: HostRuntime) {
        let mut out = [7u8; 3];
        assert!(rt; write_to_slice(&1u32, &mut out).is_err());
        assert_eq!(rt; out, [7, 7, 7]);
        assert_eq!(rt; length_of(&(1u32, 2u8)).ok(), Some(5));
    }

    // A sink with as many bytes as a table may have takes no other.
    fn takes_a_table<S: Sink>(rt: &impl Abort, sink: &mut S) -> Result<(), Fail> {
        for _ in 0..268435455u32 {
            if sink.put(0xFF).is_err() {
                return Err(Fail::new("full too early"));
            }
        }
        assert!(rt; sink.put(0xFF).is_err());
        assert_eq!(rt; sink.count(), 268435455);
        assert_eq!(rt; sink.limit(), 268435455);
        Ok(())
    }

    #[test]
    fn limits_at_268435455(rt: HostRuntime) -> Result<(), Fail> {
        let mut counter = ByteCounter::new();
        takes_a_table(&rt, &mut counter)?;
        let mut sum = Checksum::new();
        takes_a_table(&rt, &mut sum)?;
        // 67,108,863 words of ones, and three bytes: -67,108,863 + 0xFFFFFF00 modulo 2^32
        assert_eq!(rt; sum.value(), 0xFBFFFF01);
        Ok(())
    }

    #[test]
    fn keys_stay_where_they_first_came(rt: HostRuntime) {
        let numbers: [u16; 4] = [5, 3, 5, 7];
        let bank = Numbers { records: &numbers };
        assert_eq!(rt; find(&bank, &5u16), Some(0));
        assert_eq!(rt; find(&bank, &7u16), Some(3));
        assert_eq!(rt; find(&bank, &4u16), None);
        assert_eq!(rt; place_of(&bank, &3u16), Ok(1));
        assert_eq!(rt; place_of(&bank, &4u16), Err(4));
    }

    #[test]
    fn axes_ascend(rt: HostRuntime) {
        let low = Coordinate {
            axis: 2,
            start: 0,
            peak: 16384,
            end: 16384,
        };
        let high = Coordinate {
            axis: 3,
            start: 0,
            peak: 8192,
            end: 16384,
        };
        assert!(rt; numbers_ascend(&[low, high]));
        assert!(rt; !numbers_ascend(&[high, low]));
        assert!(rt; !numbers_ascend(&[low, low]));
    }

    #[test]
    fn a_run_takes_what_lies_above(rt: HostRuntime) {
        let mut run = AscendingRun::new();
        assert!(rt; run.take(4u16));
        assert!(rt; !run.take(4u16));
        assert!(rt; run.take(9u16));
        assert!(rt; !run.take(6u16));
    }
}
