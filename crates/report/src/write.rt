//! A report into a row of words.

ghost use Rattle.std.specs.Prelude.{◌≡◌, ◌^◌, ◌<◌, ◌≤◌, true, ◌++◌, length, take, if◌then◌else◌, ◌==◌};
ghost use Rattle.keyed.specs.Table.{written};
ghost use Rattle.report.specs.Reports.{means, whole, is_neighbour, in_range};
ghost use Rattle.report.specs.Refusals.{write_told};
ghost use Rattle.report.specs.Layout.{number, word as word_of, mac_words, uuid_words, words};
ghost use Rattle.report.specs.Writing.{write_answer, write_leaves};

use crate::layout::{Kind, MASKS};
use crate::{Mac, Report, Uuid, WriteFault};

const LOAD: u64 = 0xFFF_FFFF;

fn word(kind: Kind, load: u64) -> u32
    requires { load < 2 ^ 28 }
    ensures { result ≡ word_of (number kind) load }
{
    kind.number() << 28 | load as u32
}

fn mac_words(mac: Mac) -> [u32; 2]
    requires { is_neighbour mac.0 ≡ true }
    ensures { result ≡ mac_words mac.0 }
{
    [
        word(Kind::Mac, mac.0 >> 24),
        word(Kind::Mac, mac.0 & 0xFF_FFFF),
    ]
}

fn uuid_words(uuid: Uuid) -> [u32; 5]
    ensures { result ≡ uuid_words (whole uuid) }
{
    let Uuid { high, low } = uuid;
    [
        word(Kind::Uuid, high >> 48),
        word(Kind::Uuid, high >> 20 & LOAD),
        word(Kind::Uuid, (high & 0xF_FFFF) << 8 | low >> 56),
        word(Kind::Uuid, low >> 28 & LOAD),
        word(Kind::Uuid, low & LOAD),
    ]
}

/// The word of a mask, or 0 where the place holds none: the end word stands at the first.
fn mask_word(mask: u8) -> u32
    ensures { result ≡ (if mask == 0 then 0 else word_of 4 mask) }
{
    if mask == 0 {
        0
    } else {
        word(Kind::Mask, u64::from(mask))
    }
}

/// Writes words at the front of a buffer; what lies behind stays.
fn put(words: &[u32], out: &mut [u32])
    requires { length words.now ≤ length out.old }
    ensures { out.new ≡ written words.now out.old }
{
    out[..words.len()].copy_from_slice(words);
}

impl Report {
    /// How many words it has.
    fn count(&self) -> usize
        requires { in_range self.now ≡ true }
        ensures words { result ≡ length (words (means self.now)) }
        ensures most { result ≤ 17 }
    {
        MASKS + usize::from(self.nodes) + 1
    }

    /// Its words, and zeros behind them: the words before the masks have fixed places, and behind them come the masks and the
    /// end. Pushed one by one to a list that counts them, they would be no plainer than in their places.
    fn words(&self) -> [u32; 17]
        requires { in_range self.now ≡ true }
        ensures { take (length (words (means self.now))) result ≡ words (means self.now) }
    {
        let head = word(
            Kind::Head,
            u64::from(self.position) * 16 + u64::from(self.nodes),
        );
        let [own_high, own_low] = mac_words(self.mac);
        let [side1_high, side1_low] = mac_words(self.side1);
        let [side2_high, side2_low] = mac_words(self.side2);
        let [uuid1, uuid2, uuid3, uuid4, uuid5] = uuid_words(self.uuid);
        let [mask1, mask2, mask3, mask4] = self.masks;
        [
            head,
            own_high,
            own_low,
            side1_high,
            side1_low,
            side2_high,
            side2_low,
            uuid1,
            uuid2,
            uuid3,
            uuid4,
            uuid5,
            mask_word(mask1),
            mask_word(mask2),
            mask_word(mask3),
            mask_word(mask4),
            0,
        ]
    }

    /// Writes its words at the front of the buffer and gives their number; a refusal leaves the buffer as it was.
    pub fn write(&self, out: &mut [u32]) -> Result<usize, WriteFault>
        ensures answer { write_told result ≡ write_answer self.now (length out.old) }
        ensures buffer { out.new ≡ write_leaves self.now out.old }
    {
        if !self.is_in_range() {
            return Err(WriteFault::Field);
        }
        let count = self.count();
        if out.len() < count {
            return Err(WriteFault::Short);
        }
        let words = self.words();
        put(&words[..count], out);
        Ok(count)
    }
}
