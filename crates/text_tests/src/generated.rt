// Bytes from a small generator: whatever read accepts is written back as itself.
use super::helpers::written_back;
use drawn::Drawn;
use std::test::Fail;
use text::read;

const GOOD: [u8; 107] =
    *b"vertices=3\nvertex=1,0\nvertex=0,1\nvertex=0,2\nmoves=5\nmove=0,0,5\nmove=0,1,0\nmove=1,2,7\nmove=1,0,5\nmove=2,0,5\n";

const BYTES: &[u8] = b"0123456789,=\nvertxcsmo";

/// A generator of Knuth's kind.
#[derive(Drop)]
struct Generator {
    state: u64,
}

impl Generator {
    /// A number below the limit, from the upper half of the next state; 0 where nothing is below it.
    fn below(&mut self, limit: usize) -> usize {
        self.state = self
            .state
            .wrapping_mul(6_364_136_223_846_793_005)
            .wrapping_add(1_442_695_040_888_963_407);
        ((self.state >> 33) as usize)
            .checked_rem(limit)
            .unwrap_or(0)
    }
}

/// The good text with one byte changed; answers whether it was still read.
fn try_changed(place: usize, byte: u8) -> Result<bool, Fail> {
    let mut text = GOOD;
    let Some(changed) = text.get_mut(place) else {
        return Err(Fail::new("a place past the text"));
    };
    *changed = byte;
    let mut chart = Drawn::new();
    if read(&mut chart, &text).is_err() {
        return Ok(false);
    }
    written_back(&chart, &text)?;
    Ok(true)
}

#[test]
fn changed_texts(rt: HostRuntime) -> Result<(), Fail> {
    let mut generator = Generator { state: 42 };
    let mut accepted = 0u32;
    for _ in 0..4000 {
        let place = generator.below(GOOD.len());
        let pick = generator.below(BYTES.len());
        let Some(byte) = BYTES.get(pick) else {
            return Err(Fail::new("a byte past the last"));
        };
        if try_changed(place, *byte)? {
            accepted = accepted.saturating_add(1);
        }
    }
    assert!(rt; accepted > 200);
    assert!(rt; accepted < 2000);
    Ok(())
}
