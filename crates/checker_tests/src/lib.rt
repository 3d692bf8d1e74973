// Step, Box and Mix beside the same rules computed another way, over many pairs and walls.
#![tactic(auto)]

#[cfg(test)]
mod cases;
#[cfg(test)]
mod plain;
#[cfg(test)]
mod walk;

#[cfg(test)]
mod tests {
    use crate::cases::Cases;
    use crate::{plain, walk};
    use arm::Arm;
    use arm_checkers::{BoxChecker, StepChecker, both, first_in_wall, first_in_walls};
    use card_checker::MixChecker;
    use checker::Checker;
    use motion::{pose, steps};
    use std::process::Abort;
    use walls::Wall;

    // The second pose of a case: every fourth time the first one again, and every fourth time one
    // that turns a little. The case's number picks it, by its remainder.
    fn partner(cases: &mut Cases, case: u32, first: Arm) -> Arm {
        let other = cases.pose();
        match case % 4 {
            0 => first,
            1 => Arm {
                angles: [
                    first.angles[0].wrapping_add(3),
                    first.angles[1],
                    first.angles[2].wrapping_sub(2),
                    first.angles[3].wrapping_add(4096),
                    first.angles[4],
                    first.angles[5],
                ],
            },
            _ => other,
        }
    }

    // Which of Step and Box pass a pair.
    #[derive(Clone, Copy)]
    enum Passing {
        Neither,
        StepAlone,
        Both,
    }

    // Step and Box say what the rules say, both ways round.
    fn agrees(rt: &impl Abort, walls: &[Wall], e: &Arm, f: &Arm) -> Passing {
        let step = StepChecker { walls };
        let swept = BoxChecker { walls };
        let stepped = step.check(e, f);
        let boxed = swept.check(e, f);
        assert!(rt; stepped == plain::step_passes(walls, e, f));
        assert!(rt; boxed == plain::box_passes(walls, e, f));
        assert!(rt; step.check(f, e) == stepped);
        assert!(rt; swept.check(f, e) == boxed);
        assert!(rt; both(walls, e, f) == (stepped, boxed));
        if boxed {
            Passing::Both
        } else if stepped {
            Passing::StepAlone
        } else {
            Passing::Neither
        }
    }

    #[test]
    fn arms_pass_as_the_rules_say(rt: HostRuntime) {
        let mut cases = Cases::new(7);
        let mut by_neither = 0u32;
        let mut by_step_alone = 0u32;
        let mut by_both = 0u32;
        for case in 0..400 {
            let e = cases.pose();
            let f = partner(&mut cases, case, e);
            match agrees(&rt, &[cases.wall(), cases.wall()], &e, &f) {
                Passing::Neither => by_neither = by_neither.wrapping_add(1),
                Passing::StepAlone => by_step_alone = by_step_alone.wrapping_add(1),
                Passing::Both => by_both = by_both.wrapping_add(1),
            }
        }
        assert!(rt; by_neither > 100 && by_step_alone > 10 && by_both > 100);
    }

    // Step and the first steps are those that a look at every pose gives.
    fn finds(rt: &impl Abort, walls: &[Wall; 3], e: &Arm, f: &Arm) -> Option<u16> {
        let first = walk::first_step(walls, e, f);
        assert!(rt; first_in_walls(walls, e, f) == first);
        assert!(rt; (StepChecker { walls }).check(e, f) == first.is_none());
        for wall in walls {
            assert!(rt; first_in_wall(wall, e, f) == walk::first_step(&[*wall], e, f));
        }
        first
    }

    #[test]
    fn step_finds_what_a_look_at_every_pose_finds(rt: HostRuntime) {
        let mut cases = Cases::new(23);
        let mut never = 0u32;
        let mut at_once = 0u32;
        let mut later = 0u32;
        let mut later_when_long = 0u32;
        for case in 0..2400 {
            let long = case % 12 == 0;
            let e = cases.pose();
            let f = if long { cases.far(&e) } else { cases.near(&e) };
            let n = steps(&e, &f);
            let t = cases.below(n);
            let narrow = if case % 5 == 0 {
                cases.wall()
            } else {
                cases.wall_round(&pose(&e, &f, t, n))
            };
            match finds(&rt, &[cases.wall(), narrow, cases.wall()], &e, &f) {
                None => never = never.wrapping_add(1),
                Some(0) => at_once = at_once.wrapping_add(1),
                Some(_) if long => later_when_long = later_when_long.wrapping_add(1),
                Some(_) => later = later.wrapping_add(1),
            }
        }
        assert!(rt; never > 200 && at_once > 800);
        assert!(rt; later > 800 && later_when_long > 90);
    }

    #[test]
    fn cards_pass_as_the_rules_say(rt: HostRuntime) {
        let mut cases = Cases::new(11);
        let mut passing = 0u32;
        let mut stopped = 0u32;
        for case in 0..400 {
            let e = cases.card();
            let other = cases.card();
            let f = if case % 4 == 0 { e } else { other };
            let walls = [cases.card_wall(), cases.card_wall()];
            let mix = MixChecker { walls: &walls };
            let passed = mix.check(&e, &f);
            assert!(rt; passed == plain::mix_passes(&walls, &e, &f));
            assert!(rt; mix.check(&f, &e) == passed);
            if passed {
                passing = passing.wrapping_add(1);
            } else {
                stopped = stopped.wrapping_add(1);
            }
        }
        assert!(rt; passing > 20 && stopped > 20);
    }
}
