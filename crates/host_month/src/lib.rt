// What C and Rust may call on a page over a month of captures, answered and told as in
// `host_frames`. A page is 226 numbers, the host's to keep: 32 channels, how many of them are
// named, how many captures were taken, and 192 sums, six for each place. A refusal writes nothing.
#![tactic(auto)]

ghost use Rattle.std.specs.Prelude.{◌≡◌, min};
ghost use Rattle.month_spec.specs.Calls.{start_number, answer_to};
ghost use Rattle.month.specs.State.{page_in, month_of};
ghost use Rattle.host_words.specs.Told.{Tells};
ghost use Rattle.host_month.specs.Words.{channels_in, sums_in, page_words, Fronted, Laid, words_of, start_words, words_after};

use month::Month;

// A channel above two bytes is none, and stands for one that breaks the page's rules.
fn channel_in(word: u64) -> u16
    ensures { result ≡ min word 65535 }
{
    u16::try_from(word).unwrap_or(u16::MAX)
}

fn channels_in(words: &[u64; 226]) -> [u16; 32]
    ensures { result ≡ channels_in words.now }
{
    let mut channels: [u16; 32] = [0; 32];
    let mut i: usize = 0;
    while i < 32 {
        channels[i] = channel_in(words[i]);
        i += 1;
    }
    channels
}

fn sums_in(words: &[u64; 226]) -> [u64; 192]
    ensures { result ≡ sums_in words.now }
{
    let mut sums: [u64; 192] = [0; 192];
    let mut k: usize = 0;
    while k < 192 {
        sums[k] = words[34 + k];
        k += 1;
    }
    sums
}

// The page that 226 words stand for, sound or not.
fn month_in(words: &[u64; 226]) -> Month
    ensures { result ≡ month_of (page_words words.now) }
{
    let channels = channels_in(words);
    let sums = sums_in(words);
    Month {
        channels,
        named: words[32] as usize,
        taken: words[33] as usize,
        sums,
    }
}

fn wide(channel: u16) -> u64
    ensures { result ≡ channel }
{
    channel as u64
}

// The channels at the front of the words, and zeros.
fn fronted(channels: [u16; 32]) -> [u64; 226]
    ensures { Fronted channels result }
{
    let mut words: [u64; 226] = [0; 226];
    let mut i: usize = 0;
    while i < 32 {
        words[i] = wide(channels[i]);
        i += 1;
    }
    words
}

// The words with the sums behind the first 34.
fn laid(front: [u64; 226], sums: [u64; 192]) -> [u64; 226]
    ensures { Laid front sums result }
{
    let mut words: [u64; 226] = front;
    let mut k: usize = 0;
    while k < 192 {
        words[34 + k] = sums[k];
        k += 1;
    }
    words
}

// The words of a page.
fn words_of(page: Month) -> [u64; 226]
    ensures { result ≡ words_of (page_in page) }
{
    let channels = page.channels;
    let sums = page.sums;
    let mut words: [u64; 226] = laid(fronted(channels), sums);
    words[32] = page.named as u64;
    words[33] = page.taken as u64;
    words
}

// A page of these channels, with nothing taken. 10, 22, 21, judged channel by channel.
pub fn rk_month_start(channels: &[u16], state: &mut [u64; 226]) -> u32
    ensures { (result ≡ start_number channels.now) × (state.new ≡ start_words channels.now state.old) }
{
    let started = Month::started(channels);
    match started.answer {
        Ok(()) => {
            *state = words_of(started.page);
            0
        }
        Err(why) => u32::from(why),
    }
}

// One more capture on a page: told are its own figures, six for each place, and the page has
// the sums. 13, 27, 28.
pub fn rk_month_add(state: &mut [u64; 226], capture: &[u8], told: &mut [u64; 192]) -> u32
    ensures { Tells (answer_to (page_words state.old) capture.now) told.old result told.new
        × (state.new ≡ words_after state.old capture.now) }
{
    let added = month_in(state).added(capture);
    match added.answer {
        Ok(figures) => {
            *state = words_of(added.page);
            *told = figures;
            0
        }
        Err(why) => u32::from(why),
    }
}
