//! What leaves with an instance: every fact, every value and the goal that name it.
ghost use Rattle.std.specs.Prelude.{◌≡◌, filter, not};
ghost use Rattle.ps_world.specs.Names.{same_name};
ghost use Rattle.ps_world.specs.Knowledge.{goal_without, is_among, without};

use super::Problem;
use ps_world::Name;

impl Problem {
    /// Takes out an instance, and every fact and value and the goal that name it.
    pub(crate) fn leave_out(&mut self, name: Name)
        ensures { self.new ≡ without name self.old }
    {
        self.leave_out_instance(name);
        self.leave_out_facts(name);
        self.leave_out_values(name);
        self.leave_out_goal(name);
    }

    fn leave_out_instance(&mut self, name: Name)
        ensures { self.new ≡ record self.old {
          instances = filter (λ i. not (same_name name i.0)) self.old.instances;
        } }
    {
        self.instances.remove(name);
    }

    fn leave_out_facts(&mut self, name: Name)
        ensures { self.new ≡ record self.old {
          facts = filter (λ f. not (is_among name f.args)) self.old.facts;
        } }
    {
        self.facts.leave_out(self.alloc, name);
    }

    fn leave_out_values(&mut self, name: Name)
        ensures { self.new ≡ record self.old {
          values = filter (λ v. not (is_among name v.0.args)) self.old.values;
        } }
    {
        self.values.leave_out(self.alloc, name);
    }

    fn leave_out_goal(&mut self, name: Name)
        ensures { self.new ≡ record self.old { goal = goal_without name self.old.goal } }
    {
        let named = match &self.goal {
            None => false,
            Some(goal) => goal.get().names(name),
        };
        if named {
            self.goal = None;
        }
    }
}
