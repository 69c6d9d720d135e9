// Examples of the functions on polynomials, over the field of 97 elements.
#![tactic(auto)]

#[cfg(test)]
mod tests {
    use modular::f97::F97;
    use refusal::reason::Refusal;
    use refusal::refused::Refused;
    use transform::interpolate::interpolate;
    use transform::polynomial::Polynomial;

    // Why a call was refused; None where it was granted.
    fn refusal(answer: Result<(), Refused>) -> Option<Refusal> {
        answer.err().map(|e| e.reason)
    }

    fn all_seven(elements: &[F97]) -> bool {
        elements.iter().all(|x| x.value() == 7)
    }

    #[test]
    fn interpolates_four_values(rt: HostRuntime) {
        let values = [F97::new(1), F97::new(0), F97::new(0), F97::new(95)];
        let mut out = [F97::new(0); 4];
        assert_eq!(rt; refusal(interpolate(&values, &mut out)), None);
        let u = Polynomial::new(&out);
        // the powers of 22, which is a square root of -1
        assert_eq!(rt; u.value_at(F97::new(1)).value(), 1);
        assert_eq!(rt; u.value_at(F97::new(22)).value(), 0);
        assert_eq!(rt; u.value_at(F97::new(96)).value(), 0);
        assert_eq!(rt; u.value_at(F97::new(75)).value(), 95);
    }

    #[test]
    fn refuses_wrong_lengths(rt: HostRuntime) {
        let values = [F97::new(1); 4];
        let mut out = [F97::new(7); 3];
        assert_eq!(rt;
            refusal(interpolate(&values, &mut out)),
            Some(Refusal::WrongLength)
        );
        assert_eq!(rt;
            refusal(interpolate(&values[0..3], &mut out)),
            Some(Refusal::WrongLength)
        );
        assert!(rt; all_seven(&out));
    }

    #[test]
    fn refuses_a_length_without_a_root(rt: HostRuntime) {
        // 97 - 1 is a multiple of 32 and not of 64
        let values = [F97::new(1); 64];
        let mut out = [F97::new(7); 64];
        assert_eq!(rt;
            refusal(interpolate(&values, &mut out)),
            Some(Refusal::NoRoot)
        );
        assert!(rt; all_seven(&out));
    }

    #[test]
    fn multiplies(rt: HostRuntime) {
        // (1 + 2 X) (3 + X) = 3 + 7 X + 2 X²
        let u = [F97::new(1), F97::new(2)];
        let v = [F97::new(3), F97::new(1)];
        let uv = [F97::new(3), F97::new(7), F97::new(2)];
        let mut out = [F97::new(7); 3];
        assert_eq!(rt;
            refusal(Polynomial::new(&u).product(&Polynomial::new(&v), &mut out)),
            None
        );
        assert!(rt; Polynomial::new(&out).equals(&Polynomial::new(&uv)));
        // from X² on, (1 + 2 X)² has one coefficient
        assert_eq!(rt;
            refusal(Polynomial::new(&u).square_upper(&mut out)),
            Some(Refusal::WrongLength)
        );
        let mut upper = [F97::new(7)];
        assert_eq!(rt; refusal(Polynomial::new(&u).square_upper(&mut upper)), None);
        assert_eq!(rt; upper[0].value(), 4);
    }

    #[test]
    fn tells_polynomials_with_the_same_values_apart(rt: HostRuntime) {
        let mut power = [F97::new(0); 98];
        power[97] = F97::new(1);
        let x = [F97::new(0), F97::new(1), F97::new(0)];
        let power = Polynomial::new(&power);
        let x = Polynomial::new(&x);
        for i in 0..97 {
            assert_eq!(rt;
                power.value_at(F97::new(i)).value(),
                x.value_at(F97::new(i)).value()
            );
        }
        assert!(rt; !power.equals(&x));
        assert!(rt; x.equals(&Polynomial::new(&x.coefficients()[0..2])));
    }
}
