// What every order works on beside drum and output: the state, and how many bytes of the output are written. It is lent from order to order,
// and an order changes what it has to.
ghost use Rattle.std.specs.Prelude.{◌≡◌, ◌+◌, ◌≤◌};
ghost use Rattle.rules.specs.Machine.{count_a, count_b, count_c, numbered, went_to};

use rules::State;

// The counts of the loop box and the problem number have three digits at most, the card counter four: check 12 sees to that before the
// first order.
#[derive(Clone, Copy)]
pub struct Desk {
    pub state: State,
    pub written: usize,
    ghost a_fits: { count_a state ≤ 999 },
    ghost b_fits: { count_b state ≤ 999 },
    ghost c_fits: { count_c state ≤ 999 },
    ghost counter_fits: { state.counter ≤ 9999 },
    ghost problem_fits: { state.problem ≤ 999 },
}

impl Desk {
    // The next order is at l.
    pub fn go_to(&mut self, l: usize)
        ensures { (self.new.state ≡ went_to self.old.state l) × (self.new.written ≡ self.old.written) }
    {
        self.state.location = l;
    }

    // The next order is the one behind this.
    pub fn go_on(&mut self)
        requires { self.old.state.location ≤ 999 }
        ensures { (self.new.state ≡ went_to self.old.state (self.old.state.location + 1))
            × (self.new.written ≡ self.old.written) }
    {
        self.state.location += 1;
    }

    // The card counter is one up; after 9999 comes 0000.
    pub fn number_next(&mut self)
        ensures { (self.new.state ≡ numbered self.old.state) × (self.new.written ≡ self.old.written) }
    {
        self.state.counter = (self.state.counter + 1) % 10_000;
    }
}
