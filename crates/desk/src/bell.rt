//! The bell that wakes the workers that sleep since nothing waits.
use std::sync::Wait;
use std::sync::atomic::{AtomicU64, Ordering};

/// How much news of a desk a worker has heard.
#[derive(Clone, Copy, PartialEq, Eq)]
pub struct Heard {
    news: u64,
}

// A ring writes `news` and then reads `sleepers`; a sleeper writes `sleepers` and then reads `news`, and the system
// looks at `news` once more before it lets it sleep. All threads see these in one order, so either the ring finds the
// sleeper or the sleeper the news, and no ring is lost. The system looks at the low 32 bits alone, which is enough:
// each ring belongs to an entry of the history, which has fewer than 2^32.
/// Counts news, modulo 2^64, and wakes those that sleep until there is some.
#[derive(Drop)]
pub(crate) struct Bell {
    news: AtomicU64,
    sleepers: AtomicU64,
}

impl Bell {
    /// A bell that was never rung.
    pub(crate) fn new() -> Bell {
        Bell {
            news: AtomicU64::new(0),
            sleepers: AtomicU64::new(0),
        }
    }

    /// How much news there was so far.
    pub(crate) fn heard(&self) -> Heard {
        Heard {
            news: self.news.load(Ordering::SeqCst),
        }
    }

    fn has_news_since(&self, heard: Heard) -> bool {
        self.news.load(Ordering::SeqCst) != heard.news
    }

    /// There is news for one sleeper.
    pub(crate) fn ring_one(&self) {
        self.news.fetch_add(1, Ordering::SeqCst);
        if self.sleepers.load(Ordering::SeqCst) > 0 {
            self.news.wake_one();
        }
    }

    /// There is news for all sleepers.
    pub(crate) fn ring_all(&self) {
        self.news.fetch_add(1, Ordering::SeqCst);
        if self.sleepers.load(Ordering::SeqCst) > 0 {
            self.news.wake_all();
        }
    }

    /// Sleeps while there is no more news than this.
    pub(crate) fn wait<R: Wait>(&self, rt: &R, heard: Heard) {
        if self.has_news_since(heard) {
            return;
        }
        self.sleepers.fetch_add(1, Ordering::SeqCst);
        for _ in rt.forever() {
            if self.has_news_since(heard) {
                break;
            }
            self.news.park(rt, (heard.news & 0xffff_ffff) as u32);
        }
        self.sleepers.fetch_sub(1, Ordering::SeqCst);
    }
}
