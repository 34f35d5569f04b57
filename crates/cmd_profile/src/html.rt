//! The sheet as an HTML document, which is printed on A4.

use crate::form::{Cell, Column, Form, fill};
use cmd_text::Escaped;
use std::alloc::Global;
use std::fmt;
use std::io::{self, Write};

/// How the sheet looks: pages of A4, each with its number and the front of the digest; upright first, and on their sides
/// where tables are wide. A table that goes on has its heads on each page, and no row or line is cut by the end of one.
const STYLE: &str = "\
@page { size: A4; margin: 16mm 14mm 18mm }\n\
@page wide { size: A4 landscape }\n\
html { font: 9pt/1.35 \"Liberation Sans\", Arial, Helvetica, sans-serif; color: #000; background: #fff }\n\
body { margin: 0 }\n\
h1 { font-size: 15pt; line-height: 1.2; margin: 0 0 5mm }\n\
h2 { font-size: 11pt; margin: 6mm 0 2mm; break-after: avoid }\n\
p { margin: 0 0 2mm; overflow-wrap: anywhere }\n\
.wide { page: wide; break-before: page }\n\
table { width: 100%; border-collapse: collapse; font-variant-numeric: tabular-nums }\n\
thead { display: table-header-group }\n\
tr, li { break-inside: avoid }\n\
th, td { border: .2mm solid #888; padding: .8mm 1.2mm; text-align: left; vertical-align: top }\n\
th { background: #eee; print-color-adjust: exact; -webkit-print-color-adjust: exact }\n\
td { white-space: nowrap }\n\
.free { white-space: normal; overflow-wrap: anywhere; min-width: 22mm }\n\
.number { text-align: right }\n\
.blank { min-width: 12mm; height: 5mm }\n\
.upright .blank { height: 9mm; min-width: 25mm }\n\
.name { white-space: normal; overflow-wrap: anywhere; min-width: 50mm }\n\
ul { margin: 0; padding: 0; list-style: none }\n\
li { display: flex; gap: 2mm; margin-bottom: .6mm; overflow-wrap: anywhere }\n\
li b { flex: none; box-sizing: border-box; width: 3.6mm; height: 3.6mm; margin-top: .3mm; border: .2mm solid #000; \
text-align: center; font-size: 8pt; line-height: 2.9mm }\n\
dl { display: grid; grid-template-columns: 32mm 1fr; margin: 0 0 4mm }\n\
dt, dd { margin: 0; padding: .8mm 0; border-bottom: .2mm solid #bbb; overflow-wrap: anywhere }\n\
@media screen { body { max-width: 270mm; margin: 8mm auto; padding: 0 8mm } }\n";

/// What a browser may load for it: its own style, and the empty icon. Nothing may run.
const POLICY: &str = "default-src 'none'; style-src 'unsafe-inline'; img-src data:";

/// What is written and not ended yet.
#[derive(Clone, Copy, PartialEq)]
enum Block {
    Nothing,
    Facts,
    Marks,
    Table,
}

impl Block {
    /// What begins it.
    fn start(self) -> &'static str {
        match self {
            Block::Nothing | Block::Table => "",
            Block::Facts => "<dl>\n",
            Block::Marks => "<ul>\n",
        }
    }

    /// What ends it.
    fn end(self) -> &'static str {
        match self {
            Block::Nothing => "",
            Block::Facts => "</dl>\n",
            Block::Marks => "</ul>\n",
            Block::Table => "</tbody>\n</table>\n",
        }
    }
}

/// The sheet as one HTML document that needs nothing else.
#[derive(Drop)]
pub(crate) struct HtmlForm<'a, W> {
    writer: &'a mut W,
    block: Block,
    columns: &'static [Column],
    /// What the place under way shows.
    shown: String,
}

impl<'a, W: Write> HtmlForm<'a, W> {
    /// A sheet of which nothing is written yet.
    pub(crate) fn new(alloc: Global, writer: &'a mut W) -> HtmlForm<'a, W> {
        HtmlForm {
            writer,
            block: Block::Nothing,
            columns: &[],
            shown: String::new(alloc),
        }
    }

    /// Ends what isn't ended, and begins something else, unless it is the same.
    fn go_on(&mut self, block: Block) -> io::Result<()> {
        if self.block == block {
            return Ok(());
        }
        self.writer.write_all(self.block.end().as_bytes())?;
        self.block = block;
        self.writer.write_all(block.start().as_bytes())
    }

    /// Writes what is shown of something, between two tags.
    fn write_between<D: fmt::Display>(
        &mut self,
        start: &str,
        shown: &D,
        end: &str,
    ) -> io::Result<()> {
        fill(&mut self.shown, shown)?;
        let text = Escaped::html_words(self.shown.as_str());
        writeln!(self.writer, "{start}{text}{end}")
    }

    /// Writes a cell of a column.
    fn write_cell(&mut self, column: Column, cell: Cell<'_>) -> io::Result<()> {
        let start = match cell {
            Cell::Blank => "<td class=blank>",
            Cell::Name(_) => "<td class=name>",
            _ if column.has_numbers() => "<td class=number>",
            _ if column.width() == 0 => "<td class=free>",
            _ => "<td>",
        };
        self.write_between(start, &cell, "</td>")
    }

    /// Writes the head of a column.
    fn write_head(&mut self, column: &Column) -> io::Result<()> {
        let start = if column.has_numbers() {
            "<th class=number>"
        } else {
            "<th>"
        };
        self.write_between(start, &column.head(), "</th>")
    }
}

impl<'a, W: Write> Form for HtmlForm<'a, W> {
    fn begin(&mut self, title: &str, digest: &str) -> io::Result<()> {
        let front = digest.get(..16).unwrap_or(digest);
        writeln!(
            self.writer,
            "<!DOCTYPE html>\n<html lang=en>\n<head>\n<meta charset=utf-8>\n\
            <meta name=viewport content=\"width=device-width, initial-scale=1\">\n\
            <meta http-equiv=Content-Security-Policy content=\"{POLICY}\">\n\
            <link rel=icon href=\"data:,\">\n<title>{title}</title>\n<style>\n{STYLE}\
            @page {{ @bottom-left {{ content: \"SHA-256 {front}..\"; font-size: 8pt }} \
            @bottom-right {{ content: \"page \" counter(page) \" of \" counter(pages); font-size: 8pt }} }}\n\
            </style>\n</head>\n<body>\n<section class=upright>\n<h1>{title}</h1>"
        )
    }

    fn fact<D: fmt::Display + Drop>(&mut self, word: &str, fact: D) -> io::Result<()> {
        self.go_on(Block::Facts)?;
        self.write_between("<dt>", &word, "</dt>")?;
        self.write_between("<dd>", &fact, "</dd>")
    }

    fn chapter(&mut self, title: &str) -> io::Result<()> {
        self.go_on(Block::Nothing)?;
        writeln!(self.writer, "<h2>{title}</h2>")
    }

    fn wide_chapter(&mut self, title: &str) -> io::Result<()> {
        self.go_on(Block::Nothing)?;
        self.writer
            .write_all(b"</section>\n<section class=wide>\n")?;
        self.chapter(title)
    }

    fn note<D: fmt::Display + Drop>(&mut self, note: D) -> io::Result<()> {
        self.go_on(Block::Nothing)?;
        self.write_between("<p>", &note, "</p>")
    }

    fn mark<D: fmt::Display + Drop>(&mut self, is_used: bool, text: D) -> io::Result<()> {
        self.go_on(Block::Marks)?;
        let start = if is_used {
            "<li><b>x</b>"
        } else {
            "<li><b></b>"
        };
        self.write_between(start, &text, "</li>")
    }

    fn table(&mut self, columns: &'static [Column]) -> io::Result<()> {
        self.go_on(Block::Nothing)?;
        self.block = Block::Table;
        self.columns = columns;
        self.writer.write_all(b"<table>\n<thead><tr>\n")?;
        for column in columns {
            self.write_head(column)?;
        }
        self.writer.write_all(b"</tr></thead>\n<tbody>\n")
    }

    fn row(&mut self, first: Cell<'_>, others: &[Cell<'_>]) -> io::Result<()> {
        let columns = self.columns;
        let Some((column, columns)) = columns.split_first() else {
            return Ok(());
        };
        self.writer.write_all(b"<tr>\n")?;
        self.write_cell(*column, first)?;
        for (column, cell) in columns.iter().zip(others) {
            self.write_cell(*column, *cell)?;
        }
        self.writer.write_all(b"</tr>\n")
    }

    fn end(&mut self) -> io::Result<()> {
        self.go_on(Block::Nothing)?;
        self.writer.write_all(b"</section>\n</body>\n</html>\n")
    }
}
