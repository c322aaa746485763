// The lines of a save, written one after the other.
ghost use Rattle.std.specs.Prelude.{◌≡◌, [], ◌∷◌, ◌++◌, ◌+◌, ◌*◌, ◌<◌, ◌≤◌, length, drop};
ghost use Rattle.frames.specs.Frames.{text, line};
ghost use Rattle.lines.specs.Building.{holding};
ghost use Rattle.bounds.specs.State.{state_runs};
ghost use Rattle.editions.specs.Lines.{head2, run2, node2, end_layout, edition2, line_of, save_length};
ghost use Rattle.saves.specs.Save.{run_values, state_values, values2, save_text};
ghost use Rattle.saves.specs.Private.{saved_by};

use frames::Kind;
use lines::Line;
use quantities::Parameters;
use surge::Clock;

// What is saved: N and E, the sum of all D, the parameters, state and clock.
#[derive(Clone, Copy)]
pub(crate) struct Saved<'a> {
    pub n: usize,
    pub e: usize,
    pub sum: u64,
    pub p: Parameters,
    pub state: &'a [f64],
    pub clock: Clock,
}

impl Saved<'_> {
    fn head_line(&self) -> Line
        ensures { result ≡ holding (text (line head2 0 (self.now.n ∷ self.now.e ∷ self.now.clock.step ∷ []))) }
    {
        let counts = Line::begin(Kind::Head2.byte(), 0)
            .append(2, self.n as u64)
            .append(2, self.e as u64);
        counts.append(4, self.clock.step as u64).seal()
    }

    fn run_line(&self) -> Line
        ensures { result ≡ holding (text (line run2 1 (run_values self.now.p self.now.sum))) }
    {
        let dt = Line::begin(Kind::Run.byte(), 1).append(8, patterns::pattern_of(self.p.dt));
        let tau = dt.append(8, patterns::pattern_of(self.p.tau));
        let k = tau.append(8, patterns::pattern_of(self.p.k));
        let f = k.append(8, patterns::pattern_of(self.p.f));
        f.append(8, self.sum).seal()
    }

    fn node_line(&self, i: usize) -> Line
        requires { (i < self.now.n) × (self.now.n ≤ 4096) × (length self.now.state.now ≡ state_runs * self.now.n) }
        ensures { result ≡ holding (text (line node2 (i + 2) (state_values self.now.n self.now.state.now i))) }
    {
        let n = self.n;
        let state = self.state;
        let begun = Line::begin(Kind::Node2.byte(), i as u64 + 2);
        let earlier = begun.append(8, patterns::pattern_of(state[0 * n + i]));
        let z = earlier.append(8, patterns::pattern_of(state[1 * n + i]));
        let u = z.append(8, patterns::pattern_of(state[2 * n + i]));
        let v = u.append(8, patterns::pattern_of(state[3 * n + i]));
        let wx = v.append(8, patterns::pattern_of(state[4 * n + i]));
        wx.append(8, patterns::pattern_of(state[5 * n + i])).seal()
    }

    fn end_line(&self) -> Line
        requires { self.now.n ≤ 4096 }
        ensures { result ≡ holding (text (line end_layout (self.now.n + 2) (self.now.n ∷ []))) }
    {
        Line::begin(Kind::End.byte(), self.n as u64 + 2)
            .append(2, self.n as u64)
            .seal()
    }

    // Line j: head, line 05, nodes, end.
    fn line_of(&self, j: usize) -> Line
        requires { (self.now.n ≤ 4096) × (length self.now.state.now ≡ state_runs * self.now.n) × (j ≤ self.now.n + 2) }
        ensures { result ≡ holding (text (line_of edition2 self.now.n (values2 (saved_by self.now)) j)) }
    {
        if j == 0 {
            return self.head_line();
        }
        if j == 1 {
            return self.run_line();
        }
        if j <= self.n + 1 {
            self.node_line(j - 2)
        } else {
            self.end_line()
        }
    }

    // All of them, over the start of the text.
    pub(crate) fn write(&self, text: &mut [u8])
        requires { (self.now.n ≤ 4096) × (length self.now.state.now ≡ state_runs * self.now.n) × (save_length self.now.n ≤ length text.old) }
        ensures { text.new ≡ save_text (saved_by self.now) ++ drop (save_length self.now.n) text.old }
    {
        let count = self.n + 3;
        let mut at = 0;
        for j in 0..count {
            at = lines::put(text, at, self.line_of(j));
        }
    }
}
