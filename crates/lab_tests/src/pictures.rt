//! Scales, ticks, texts and documents, by numbers worked out by hand.
use expect::equal;
use std::alloc::Global;
use std::test::Fail;
use svg_plots::{
    Anchor, Axis, CellGroup, CellMap, CellRow, CellRows, Cells, Colour, Crossing, Curve, Curves,
    Escaped, Label, Mark, Panel, Picture, Points, Scale, ShadeKey, Spot, Stroke, Tenths, Tick,
    Whisker, Whiskers, Writing, draw_curves, draw_map, log2_hundredths, tick_step,
};

#[test]
fn scales_place_values(rt: HostRuntime) {
    let across = Scale {
        from: 10,
        to: 30,
        start: 100,
        end: 300,
    };
    for (value, place) in [(10, 100), (15, 150), (30, 300), (9, 100), (31, 300)] {
        assert!(rt; equal(&rt, across.place(value), place));
    }
    let up = Scale {
        from: 0,
        to: 3,
        start: 100,
        end: 0,
    };
    for (value, place) in [(0, 100), (1, 67), (2, 34), (3, 0)] {
        assert!(rt; equal(&rt, up.place(value), place));
    }
}

#[test]
fn ticks_are_few(rt: HostRuntime) {
    for (span, most, step) in [
        (0, 8, 1),
        (8, 8, 1),
        (9, 8, 2),
        (101, 10, 20),
        (1_000, 8, 200),
        (4_294_967_295, 4, 2_000_000_000),
        (4_294_967_295, 2, 4_294_967_295),
    ] {
        assert!(rt; equal(&rt, tick_step(span, most), step));
    }
}

// log2 3 is 1.58496.., log2 10 is 3.32192.., log2 1.5 is 0.58496..
#[test]
fn logarithms_are_rounded_down(rt: HostRuntime) {
    for (numerator, denominator, hundredths) in [
        (1, 1, 0),
        (2, 1, 100),
        (3, 1, 158),
        (10, 1, 332),
        (3, 2, 58),
        (64, 1, 600),
        (1, 2, 0),
        (1, 0, 0),
    ] {
        assert!(rt; equal(&rt, log2_hundredths(numerator, denominator), hundredths));
    }
}

#[test]
fn texts_are_escaped(rt: HostRuntime) -> Result<(), Fail> {
    let text = Escaped("a<b> & \"c\" 'd' é");
    assert!(rt;
        equal(
            &rt,
            format!(in rt.alloc(); "{text}")?.as_str(),
            "a&lt;b&gt; &amp; &quot;c&quot; &#39;d&#39; é"
        )
    );
    let lengths = [(0, "0"), (10, "1"), (125, "12.5")];
    for (length, text) in lengths {
        let length = Tenths(length);
        assert!(rt; equal(&rt, format!(in rt.alloc(); "{length}")?.as_str(), text));
    }
    Ok(())
}

const DRAWN: &str = "\
<svg xmlns=\"http://www.w3.org/2000/svg\" width=\"40\" height=\"30\" viewBox=\"0 0 40 30\" font-family=\"Helvetica, Arial, sans-serif\" fill=\"#1a1a1a\">
<title>1 &lt; 2</title>
<rect width=\"40\" height=\"30\" fill=\"#ffffff\"/>
<line x1=\"1\" y1=\"2\" x2=\"3\" y2=\"4.5\" stroke=\"#000000\" stroke-width=\"1\" stroke-dasharray=\"5 4\"/>
<rect x=\"1\" y=\"2\" width=\"7\" height=\"0.5\" fill=\"#ffffff\"/>
<rect x=\"1\" y=\"2\" width=\"2\" height=\"2.5\" fill=\"none\" stroke=\"#000000\" stroke-width=\"1\"/>
<text x=\"1\" y=\"2\" font-size=\"12\" text-anchor=\"middle\" font-weight=\"bold\">a&amp;b</text>
<polyline points=\"1,2 3,4.5 \" fill=\"none\" stroke-linejoin=\"round\" stroke=\"#000000\" stroke-width=\"1\"/>
<path d=\"M3 4.5m-3 -3h6v6h-6z\" fill=\"#000000\" stroke=\"#000000\" stroke-width=\"1.5\"/>
</svg>
";

#[test]
fn elements_are_written(rt: HostRuntime) -> Result<(), Fail> {
    let (from, to) = (Spot { x: 10, y: 20 }, Spot { x: 30, y: 45 });
    let plain = Stroke {
        colour: Colour::Black,
        width: 10,
        dashed: false,
    };
    let dashed = Stroke {
        colour: Colour::Black,
        width: 10,
        dashed: true,
    };
    let how = Writing {
        anchor: Anchor::Middle,
        size: 12,
        bold: true,
    };
    let mut picture = Picture::new(rt.alloc());
    picture.line(from, to, dashed)?;
    picture.cell(from, 70, 5, Colour::Shade(0))?;
    picture.frame(from, to, plain)?;
    picture.words(from, how, "a&b")?;
    picture.path(vec![in rt.alloc(); from, to]?, plain)?;
    picture.path(vec![in rt.alloc(); from]?, plain)?;
    picture.mark(to, Mark::Square, Colour::Black)?;
    assert!(rt; equal(&rt, picture.draw(40, 30, "1 < 2")?.as_str(), DRAWN));
    Ok(())
}

const PLAIN: Stroke = Stroke {
    colour: Colour::Black,
    width: 10,
    dashed: false,
};

// One panel is from 46 to 780 across, and from 386 to 86 up.
#[test]
fn curves_are_drawn(rt: HostRuntime) -> Result<(), Fail> {
    let axis = Axis {
        title: "p",
        from: 0,
        to: 4,
        ticks: &[Tick {
            value: 1,
            number: 2,
        }],
    };
    let mut points = Vec::new(rt.alloc());
    for point in [(0, 0), (2, 1), (4, 9)] {
        points.push(point)?;
    }
    let whiskers = vec![in rt.alloc();
        Whisker {
            across: 2,
            from: 1,
            to: 3,
        },
    ]?;
    let mut curves = Vec::new(rt.alloc());
    curves.push(Curve {
        label: Label::new(rt.alloc(), "h < 1")?,
        points: Points::from_vec(points),
        whiskers: Whiskers::from_vec(whiskers),
        stroke: PLAIN,
        mark: Some(Mark::Up),
    })?;
    let mut panels = Vec::new(rt.alloc());
    panels.push(Panel {
        title: "low",
        across: axis,
        up: axis,
        curves,
    })?;
    let drawn = Curves {
        title: "rates",
        panels: panels.as_slice(),
        legend_columns: 1,
    };
    let text = draw_curves(rt.alloc(), &drawn, &[Label::new(rt.alloc(), "seed 1")?])?;
    for part in [
        "height=\"487\"",
        "<polyline points=\"46,386 413,311 780,86 \"",
        "<line x1=\"413\" y1=\"311\" x2=\"413\" y2=\"161\" stroke=\"#000000\" stroke-width=\"1\"/>",
        "<line x1=\"407.5\" y1=\"161\" x2=\"418.5\" y2=\"161\" stroke=\"#000000\" stroke-width=\"1\"/>",
        "<path d=\"M413 311m0 -4l4 7h-8z\"",
        "<text x=\"229.5\" y=\"403\" font-size=\"12\" text-anchor=\"middle\">2</text>",
        ">h &lt; 1</text>",
        ">seed 1</text>",
    ] {
        assert!(rt; text.as_str().contains(part));
    }
    Ok(())
}

/// One group of one row of two cells.
fn groups(alloc: Global) -> Result<Vec<CellGroup>, Fail> {
    let cells = Cells::from_vec(vec![in alloc; 2, 3]?);
    let label = Label::new(alloc, "l0.0")?;
    let rows = CellRows::from_vec(vec![in alloc; CellRow { label, cells }]?);
    let label = Label::new(alloc, "stage 0")?;
    Ok(vec![in alloc; CellGroup { label, rows }]?)
}

/// The key of one shade.
fn key(alloc: Global) -> Result<Vec<ShadeKey>, Fail> {
    let label = Label::new(alloc, "3 full")?;
    Ok(vec![in alloc; ShadeKey { number: 3, label }]?)
}

/// One crossing, before the second column.
fn crossings(alloc: Global) -> Result<Vec<Crossing>, Fail> {
    let column = Some(1);
    let label = Label::new(alloc, "level 1: cycle 8")?;
    Ok(vec![in alloc; Crossing { column, label }]?)
}

/// A map of these, as text.
fn map_of(
    alloc: Global,
    groups: Vec<CellGroup>,
    key: Vec<ShadeKey>,
    crossings: Vec<Crossing>,
) -> Result<String, Fail> {
    let map = CellMap {
        title: Label::new(alloc, "queues")?,
        across: "cycle",
        ticks: vec![in alloc;
            Tick {
                value: 1,
                number: 8,
            },
        ]?,
        groups,
        middle: 0,
        most: 4,
        marked: 3,
        key,
        crossings,
        levels: vec![in alloc; 0, 1]?,
        level_title: "level",
        highest: 1,
        strokes: vec![in alloc; false, true]?,
        stroke_title: "served",
        notes: Vec::new(alloc),
    };
    Ok(draw_map(alloc, &map)?)
}

// Two columns are 285 pixels wide each, one row is 20 high, and its cells begin at 96 under one crossing's label.
#[test]
fn maps_are_drawn(rt: HostRuntime) -> Result<(), Fail> {
    let alloc = rt.alloc();
    let text = map_of(alloc, groups(alloc)?, key(alloc)?, crossings(alloc)?)?;
    for part in [
        "<rect x=\"100\" y=\"96\" width=\"285\" height=\"19.6\" fill=\"#6baed6\"/>",
        "<rect x=\"385\" y=\"96\" width=\"285\" height=\"19.6\" fill=\"#2171b5\"/>",
        "<line x1=\"385\" y1=\"105.8\" x2=\"670\" y2=\"105.8\" stroke=\"#ffd75e\"",
        "<line x1=\"385\" y1=\"42\" x2=\"385\" y2=\"144\" stroke=\"#d55e00\"",
        "<polyline points=\"100,80 385,80 385,62 670,62 \"",
        "<text x=\"385\" y=\"162\" font-size=\"12\" text-anchor=\"middle\">8</text>",
        "<text x=\"82\" y=\"162\" font-size=\"12\" text-anchor=\"end\">cycle</text>",
        ">l0.0</text>",
        ">level 1: cycle 8</text>",
        "<rect x=\"685\" y=\"96\" width=\"24\" height=\"11\" fill=\"#2171b5\"/>",
        "<text x=\"715\" y=\"105.5\" font-size=\"12\" text-anchor=\"start\">3 full</text>",
    ] {
        assert!(rt; text.as_str().contains(part));
    }
    Ok(())
}

/// Two cells: two below the middle, and one above it.
fn lower_and_higher(alloc: Global) -> Result<Vec<CellGroup>, Fail> {
    let row = CellRow {
        label: Label::new(alloc, "l0.0")?,
        cells: Cells::from_vec(vec![in alloc; 0, 3]?),
    };
    let group = CellGroup {
        label: Label::new(alloc, "stage 0")?,
        rows: CellRows::from_vec(vec![in alloc; row]?),
    };
    Ok(vec![in alloc; group]?)
}

// Without levels and crossings the cells begin at 48. Of two steps down the second is the darkest orange, with a dark line; of two
// up the first is in the middle of the blue ones.
#[test]
fn differences_are_drawn(rt: HostRuntime) -> Result<(), Fail> {
    let alloc = rt.alloc();
    let map = CellMap {
        title: Label::new(alloc, "queues")?,
        across: "cycle",
        ticks: Vec::new(alloc),
        groups: lower_and_higher(alloc)?,
        middle: 2,
        most: 4,
        marked: 5,
        key: Vec::new(alloc),
        crossings: Vec::new(alloc),
        levels: vec![in alloc; 0, 0]?,
        level_title: "",
        highest: 0,
        strokes: Vec::new(alloc),
        stroke_title: "",
        notes: Vec::new(alloc),
    };
    let text = draw_map(alloc, &map)?;
    for part in [
        "<rect x=\"100\" y=\"48\" width=\"285\" height=\"19.6\" fill=\"#d94801\"/>",
        "<line x1=\"100\" y1=\"57.8\" x2=\"385\" y2=\"57.8\" stroke=\"#1a1a1a\"",
        "<rect x=\"385\" y=\"48\" width=\"285\" height=\"19.6\" fill=\"#6baed6\"/>",
    ] {
        assert!(rt; text.as_str().contains(part));
    }
    assert!(rt; !text.as_str().contains("<polyline"));
    Ok(())
}
