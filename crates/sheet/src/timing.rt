// The even-tempo times, in double precision. A number of 16 bits is exact in it, so `as f64` says what `f64::from` would, and is shorter.
ghost use Rattle.std.specs.Prelude.{◌≡◌, ◌≤◌, length};
ghost use Rattle.tempo_spec.specs.Tempo.{even_time, with_times};

// The even tempo of some strokes, from the first tick to the last.
#[derive(Clone, Copy, Debug, PartialEq, Eq)]
pub(crate) struct Tempo {
    pub(crate) first: u16,
    pub(crate) last: u16,
    pub(crate) strokes: u16,
    ghost in_order: { first ≤ last },
}

impl Tempo {
    // The time of stroke k: the first tick plus span times k over strokes less one, each operation rounded once. A single stroke takes
    // its own tick.
    #[tactic(auto, unfolding(tempo_spec::specs::Tempo::even_time))]
    fn time_of(self, k: u16) -> f64
        ensures { result ≡ even_time self.first self.last self.strokes k }
    {
        if 1 < self.strokes {
            let span = self.last - self.first;
            let gaps = self.strokes - 1;
            return self.first as f64 + span as f64 * k as f64 / gaps as f64;
        }
        self.first as f64
    }

    // Place k of the list takes the time of stroke k; later places stay.
    pub(crate) fn fill(self, list: &mut [f64])
        requires { self.strokes ≤ length list.old }
        ensures { list.new ≡ with_times self.first self.last self.strokes list.old }
    {
        for (k, time) in list[..self.strokes as usize].iter_mut().enumerate() {
            *time = self.time_of(k as u16);
        }
    }
}
