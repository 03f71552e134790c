// Examples of calls to a station.
use crate::fault::StationFault;
use crate::station::{CutAnswer, Station};
use cut_sets::band::Band;
use pictures::{BytePicture, Negative};
use rules::{Absolute, Squares};

#[test]
fn two_bands(rt: HostRuntime) {
    let m = [10, 10, 12, 12, 50, 50, 52, 60];
    let mut station = Station::new(Squares);
    assert_eq!(rt; station.otsu_cut(), Err(StationFault::Empty));
    assert_eq!(rt; station.band(1), None);
    assert_eq!(rt; station.lay(&BytePicture::new(&m, 4)), Ok(()));
    assert_eq!(rt; station.total(), 8);
    assert_eq!(rt;
        station.otsu_cut(),
        Ok(CutAnswer {
            classes: 2,
            sum: 72,
        })
    );
    assert_eq!(rt; station.band(0), None);
    assert_eq!(rt;
        station.band(1),
        Some(Band {
            low: 10,
            high: 12,
            level: 11,
            count: 4,
        })
    );
    assert_eq!(rt;
        station.band(2),
        Some(Band {
            low: 13,
            high: 60,
            level: 53,
            count: 4,
        })
    );
    assert_eq!(rt; station.band(3), None);
}

#[test]
fn absolute_distances(rt: HostRuntime) {
    let m = [10, 10, 12, 12, 50, 50, 52, 60];
    let mut station = Station::new(Absolute);
    assert_eq!(rt; station.lay(&BytePicture::new(&m, 4)), Ok(()));
    assert_eq!(rt;
        station.otsu_cut(),
        Ok(CutAnswer {
            classes: 2,
            sum: 18,
        })
    );
}

// Thresholds 0 to 3 are equally good here, and the first is taken.
#[test]
fn first_of_equal_thresholds(rt: HostRuntime) {
    let pixels = [0, 2, 4];
    let mut station = Station::new(Squares);
    assert_eq!(rt; station.lay(&BytePicture::new(&pixels, 3)), Ok(()));
    assert_eq!(rt; station.otsu_cut(), Ok(CutAnswer { classes: 2, sum: 2 }));
    assert_eq!(rt;
        station.band(1),
        Some(Band {
            low: 0,
            high: 0,
            level: 0,
            count: 1,
        })
    );
    assert_eq!(rt;
        station.band(2),
        Some(Band {
            low: 1,
            high: 4,
            level: 3,
            count: 2,
        })
    );
}

// The mean of 1 and 2 is at a half.
#[test]
fn lower_level_at_a_half(rt: HostRuntime) {
    let pixels = [0, 1, 2];
    let mut station = Station::new(Squares);
    assert_eq!(rt; station.lay(&BytePicture::new(&pixels, 3)), Ok(()));
    assert_eq!(rt; station.otsu_cut(), Ok(CutAnswer { classes: 2, sum: 1 }));
    assert_eq!(rt;
        station.band(2),
        Some(Band {
            low: 1,
            high: 2,
            level: 1,
            count: 2,
        })
    );
}

#[test]
fn refusals(rt: HostRuntime) {
    let pixels = [7, 7];
    let mut station = Station::new(Squares);
    assert_eq!(rt;
        station.lay(&BytePicture::new(&pixels, 3)),
        Err(StationFault::NoPixel)
    );
    assert_eq!(rt; station.lay(&BytePicture::new(&pixels, 2)), Ok(()));
    assert_eq!(rt; station.otsu_cut(), Err(StationFault::FewLevels(1)));
}

#[test]
fn lift_level_by_level(rt: HostRuntime) {
    let m = [10, 10, 12, 12, 50, 50, 52, 60];
    let mut station = Station::new(Squares);
    assert_eq!(rt; station.lay(&BytePicture::new(&m, 4)), Ok(()));
    assert_eq!(rt; station.lift(&BytePicture::new(&m[..4], 4)), Ok(()));
    assert_eq!(rt; station.total(), 4);
    // Levels 10 and 12 are gone.
    assert_eq!(rt;
        station.lift(&BytePicture::new(&m, 4)),
        Err(StationFault::Lacking(10))
    );
    assert_eq!(rt;
        station.lift(&BytePicture::new(&m, 9)),
        Err(StationFault::NoPixel)
    );
    assert_eq!(rt; station.total(), 4);
    assert_eq!(rt; station.lift(&BytePicture::new(&m[4..], 4)), Ok(()));
    assert_eq!(rt; station.otsu_cut(), Err(StationFault::Empty));
}

#[test]
fn paint_by_the_last_cut(rt: HostRuntime) {
    let m = [10, 10, 12, 12, 50, 50, 52, 60];
    let picture = BytePicture::new(&m, 4);
    let mut buffer = [7; 10];
    let mut station = Station::new(Squares);
    assert_eq!(rt;
        station.paint(&picture, &mut buffer),
        Err(StationFault::NoCut)
    );
    assert_eq!(rt; station.lay(&picture), Ok(()));
    assert_eq!(rt;
        station.otsu_cut(),
        Ok(CutAnswer {
            classes: 2,
            sum: 72,
        })
    );
    assert_eq!(rt;
        station.paint(&picture, &mut buffer[0..7]),
        Err(StationFault::ShortBuffer(8))
    );
    assert_eq!(rt; buffer, [7; 10]);
    assert_eq!(rt; station.paint(&picture, &mut buffer), Ok(()));
    assert_eq!(rt; buffer, [11, 11, 11, 11, 53, 53, 53, 53, 7, 7]);
    let negative = Negative { below: picture };
    assert_eq!(rt; station.paint(&negative, &mut buffer), Ok(()));
    assert_eq!(rt; buffer, [53, 53, 53, 53, 53, 53, 53, 53, 7, 7]);
}
