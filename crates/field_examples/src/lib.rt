// Worked values of the fields. In a crate of its own, since a crate with tests is proved twice.
#![tactic(auto)]

#[cfg(test)]
mod tests {
    use field::field::Field;
    use field::file_field::FileField;
    use modular::f97::F97;
    use modular::f12289::F12289;
    use quadratic::quadratic::Quadratic;

    // a + bθ over the field of 97 elements, where θ² = 28.
    fn over_97(a: u32, b: u32) -> Quadratic<F97> {
        Quadratic::new(F97::new(a), F97::new(b))
    }

    #[test]
    fn roots(rt: HostRuntime) {
        assert_eq!(rt; F97::root(5), Some(F97::new(28)));
        assert_eq!(rt; F97::root(6), None);
        assert_eq!(rt; Quadratic::root(6), Some(over_97(0, 1)));
    }

    #[test]
    fn doubled_products(rt: HostRuntime) {
        let x = over_97(1, 1);
        assert_eq!(rt; x.mul(x), over_97(29, 2));
        assert_eq!(rt; over_97(0, 1).inverse(), Some(over_97(0, 52)));
    }

    #[test]
    fn table_products(rt: HostRuntime) {
        let eleven = F12289::new(11);
        assert_eq!(rt; eleven.inverse(), Some(F12289::new(5586)));
        assert_eq!(rt; eleven.mul(eleven).mul(eleven), F12289::new(1331));
    }

    #[test]
    fn coordinates(rt: HostRuntime) {
        let x = Quadratic::new(over_97(3, 5), over_97(7, 0));
        assert_eq!(rt; x.coordinate(1), Some(7));
        assert_eq!(rt; x.coordinate(2), Some(5));
        assert_eq!(rt; x.coordinate(4), None);
        assert_eq!(rt; over_97(96, 0).number(), Some(96));
        assert_eq!(rt; over_97(0, 1).number(), None);
        assert_eq!(rt; F12289::element(12289), None);
    }
}
