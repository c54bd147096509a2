//! The site file of five fuelling points, and one of sixty-four. What their texts say is computed
//! by theorems of site_file; here they are read.

mod out_of_memory;

use site_base::SiteConfig;
use site_file::read_config;
use std::alloc::{AllocError, Global};
use std::process::Abort;
use std::test::Fail;

/// Two products; till 1 a manager.
const PRODUCTS: &str = "managers = [1]
[[product]]
number = 1
name = \"diesel\"
price = 1500
[[product]]
number = 2
name = \"petrol\"
price = 1799
";

/// The nozzles of each fuelling point.
const NOZZLES: &str = "nozzles = [{product = 1, reading = 0}, {product = 2, reading = 1000}]
";

/// A site file with as many fuelling points.
fn text_of(alloc: Global, points: u8) -> Result<String, AllocError> {
    let mut text = String::from_str(alloc, PRODUCTS)?;
    for number in 1..=points {
        write!(&mut text, "[[point]]\nnumber = {number}\n{NOZZLES}")?;
    }
    Ok(text)
}

fn assert_products(rt: &impl Abort, config: &SiteConfig) {
    let known = [(1, "diesel", 1500), (2, "petrol", 1799)];
    assert_eq!(rt; config.products().len(), known.len());
    for (product, (number, name, price)) in config.products().iter().zip(known) {
        assert_eq!(rt; product.number.get(), number);
        assert_eq!(rt; product.name.as_str(), name);
        assert_eq!(rt; product.price.get(), price);
    }
}

fn assert_points(rt: &impl Abort, config: &SiteConfig, points: u8) {
    let known = [(1, 0), (2, 1000)];
    assert_eq!(rt; config.points().len(), usize::from(points));
    for (point, number) in config.points().iter().zip(1..=points) {
        assert_eq!(rt; point.number.get(), number);
        assert_eq!(rt; point.nozzles.as_slice().len(), known.len());
        for (nozzle, (product, reading)) in point.nozzles.as_slice().iter().zip(known) {
            assert_eq!(rt; nozzle.product.get(), product);
            assert_eq!(rt; nozzle.reading.get(), reading);
        }
    }
}

/// The configuration of the site file with as many fuelling points.
fn assert_known(rt: &impl Abort, config: &SiteConfig, points: u8) {
    assert_eq!(rt; config.rows(), 1_000_000);
    assert_eq!(rt; config.managers().len(), 1);
    for till in config.managers() {
        assert_eq!(rt; till.get(), 1);
    }
    assert_products(rt, config);
    assert_points(rt, config, points);
}

#[test]
fn site_files_are_read(rt: HostRuntime) -> Result<(), Fail> {
    for points in [5, 64] {
        let text = text_of(rt.alloc(), points)?;
        match read_config(rt.alloc(), text.as_bytes()) {
            Ok(config) => assert_known(&rt, &config, points),
            Err(fault) => panic!(&rt; "{fault}"),
        }
    }
    Ok(())
}
