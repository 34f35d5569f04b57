//! The information elements of IEC 60870-5-101, 7.2.6, that carry a value and its quality.
ghost use Rattle.std.specs.Prelude.{◌≡◌, ◌/◌, ◌%◌, ◌==◌, false, Some, None, if◌then◌else◌};
ghost use Rattle.iec_asdu.specs.Bits.{quality_bits, quality_of_bits, descriptor, descriptor_quality, counter_bits, counter_quality};
ghost use Rattle.iec_asdu.specs.Elements.{single_spelling, single_meaning, IsSingleFit};
ghost use Rattle.iec_asdu.specs.Elements.{double_spelling, double_meaning, IsDoubleFit, word_spelling};
ghost use Rattle.iec_asdu.specs.Elements.{word_meaning, IsWordFit, scaled_spelling, scaled_meaning};
ghost use Rattle.iec_asdu.specs.Elements.{IsScaledFit, counter_spelling, counter_meaning, IsCounterFit};

use gw_model::{Element, Quality};

/// Single-point information with quality, SIQ.
#[derive(Clone, Copy)]
pub struct SinglePoint {
    pub on: bool,
    pub quality: Quality,
}

/// Double-point information with quality, DIQ.
#[derive(Clone, Copy)]
pub struct DoublePoint {
    /// 0 intermediate, 1 off, 2 on, 3 indeterminate.
    pub state: u8,
    pub quality: Quality,
}

/// A bit string of 32 bits with a quality descriptor, BSI and QDS.
#[derive(Clone, Copy)]
pub struct BitString {
    pub word: u32,
    pub quality: Quality,
}

/// A scaled value with a quality descriptor, SVA and QDS.
#[derive(Clone, Copy)]
pub struct ScaledValue {
    pub value: i16,
    pub quality: Quality,
}

/// A binary counter reading, BCR.
#[derive(Clone, Copy)]
pub struct CounterReading {
    pub count: u32,
    pub quality: Quality,
}

/// The bits that SIQ, DIQ and QDS have in common: 4 BL, 5 SB, 6 NT, 7 IV.
fn bits_of_quality(quality: &Quality) -> u8
    ensures { result ≡ quality_bits quality.now }
{
    let Quality { iv, nt, sb, bl, .. } = *quality;
    u8::from(bl) * 16 + u8::from(sb) * 32 + u8::from(nt) * 64 + u8::from(iv) * 128
}

/// The quality that those bits show, without overflow.
fn quality_of_bits(octet: u8) -> Quality
    ensures { result ≡ quality_of_bits false octet }
{
    Quality {
        iv: octet / 128 % 2 == 1,
        nt: octet / 64 % 2 == 1,
        sb: octet / 32 % 2 == 1,
        bl: octet / 16 % 2 == 1,
        ..Quality::GOOD
    }
}

/// The octet of a quality descriptor, QDS.
fn octet_of_descriptor(quality: &Quality) -> u8
    ensures { result ≡ descriptor quality.now }
{
    u8::from(quality.ov) + bits_of_quality(quality)
}

/// The quality that a descriptor shows, or nothing where a reserved bit, 1 to 3, is set.
fn quality_of_descriptor(octet: u8) -> Option<Quality>
    ensures { result ≡ (if octet / 2 % 8 == 0 then Some (descriptor_quality octet) else None) }
{
    if octet / 2 % 8 != 0 {
        return None;
    }
    Some(Quality {
        ov: octet % 2 == 1,
        ..quality_of_bits(octet)
    })
}

/// The last octet of a binary counter reading, with the sequence number 0.
fn octet_of_counter(quality: &Quality) -> u8
    ensures { result ≡ counter_bits quality.now }
{
    let Quality { iv, cy, ca, .. } = *quality;
    u8::from(cy) * 32 + u8::from(ca) * 64 + u8::from(iv) * 128
}

/// The quality that it shows, whatever the sequence number.
fn quality_of_counter(octet: u8) -> Quality
    ensures { result ≡ counter_quality octet }
{
    Quality {
        iv: octet / 128 % 2 == 1,
        cy: octet / 32 % 2 == 1,
        ca: octet / 64 % 2 == 1,
        ..Quality::GOOD
    }
}

impl Element for SinglePoint {
    ghost use Rattle.iec_asdu.specs.Laws.{single_fills, single_again};

    const LENGTH: usize = 1;

    ghost LENGTH = { 1 };

    ghost spelling = { single_spelling };

    ghost meaning = { single_meaning };

    ghost Fits = { IsSingleFit };

    fn write(&self, out: &mut [u8]) {
        out.copy_from_slice(&[u8::from(self.on) + bits_of_quality(&self.quality)]);
    }

    fn read(octets: &[u8]) -> Option<SinglePoint> {
        let siq = octets[0];
        if siq / 2 % 8 != 0 {
            return None;
        }
        Some(SinglePoint {
            on: siq % 2 == 1,
            quality: quality_of_bits(siq),
        })
    }

    ghost fills = { single_fills };

    ghost read_again = { single_again };
}

impl Element for DoublePoint {
    ghost use Rattle.iec_asdu.specs.Laws.{double_fills, double_again};

    const LENGTH: usize = 1;

    ghost LENGTH = { 1 };

    ghost spelling = { double_spelling };

    ghost meaning = { double_meaning };

    ghost Fits = { IsDoubleFit };

    fn write(&self, out: &mut [u8]) {
        out.copy_from_slice(&[self.state % 4 + bits_of_quality(&self.quality)]);
    }

    fn read(octets: &[u8]) -> Option<DoublePoint> {
        let diq = octets[0];
        if diq / 4 % 4 != 0 {
            return None;
        }
        Some(DoublePoint {
            state: diq % 4,
            quality: quality_of_bits(diq),
        })
    }

    ghost fills = { double_fills };

    ghost read_again = { double_again };
}

impl Element for BitString {
    ghost use Rattle.iec_asdu.specs.Laws.{word_fills, word_again};

    const LENGTH: usize = 5;

    ghost LENGTH = { 5 };

    ghost spelling = { word_spelling };

    ghost meaning = { word_meaning };

    ghost Fits = { IsWordFit };

    fn write(&self, out: &mut [u8]) {
        let [a, b, c, d] = self.word.to_le_bytes();
        out.copy_from_slice(&[a, b, c, d, octet_of_descriptor(&self.quality)]);
    }

    fn read(octets: &[u8]) -> Option<BitString> {
        let quality = quality_of_descriptor(octets[4])?;
        let word = u32::from_le_bytes([octets[0], octets[1], octets[2], octets[3]]);
        Some(BitString { word, quality })
    }

    ghost fills = { word_fills };

    ghost read_again = { word_again };
}

impl Element for ScaledValue {
    ghost use Rattle.iec_asdu.specs.Laws.{scaled_fills, scaled_again};

    const LENGTH: usize = 3;

    ghost LENGTH = { 3 };

    ghost spelling = { scaled_spelling };

    ghost meaning = { scaled_meaning };

    ghost Fits = { IsScaledFit };

    fn write(&self, out: &mut [u8]) {
        let [low, high] = self.value.cast_unsigned().to_le_bytes();
        out.copy_from_slice(&[low, high, octet_of_descriptor(&self.quality)]);
    }

    fn read(octets: &[u8]) -> Option<ScaledValue> {
        let quality = quality_of_descriptor(octets[2])?;
        let value = u16::from_le_bytes([octets[0], octets[1]]).cast_signed();
        Some(ScaledValue { value, quality })
    }

    ghost fills = { scaled_fills };

    ghost read_again = { scaled_again };
}

impl Element for CounterReading {
    ghost use Rattle.iec_asdu.specs.Laws.{counter_fills, counter_again};

    const LENGTH: usize = 5;

    ghost LENGTH = { 5 };

    ghost spelling = { counter_spelling };

    ghost meaning = { counter_meaning };

    ghost Fits = { IsCounterFit };

    fn write(&self, out: &mut [u8]) {
        let [a, b, c, d] = self.count.to_le_bytes();
        out.copy_from_slice(&[a, b, c, d, octet_of_counter(&self.quality)]);
    }

    fn read(octets: &[u8]) -> Option<CounterReading> {
        Some(CounterReading {
            count: u32::from_le_bytes([octets[0], octets[1], octets[2], octets[3]]),
            quality: quality_of_counter(octets[4]),
        })
    }

    ghost fills = { counter_fills };

    ghost read_again = { counter_again };
}
