//! Access to the lines of a file by index, from 0.
ghost use Rattle.std.specs.Prelude.{◌≡◌, ◌<◌, ◌≤◌, ◌+◌, ◌-◌, ◌^◌, suc, length, drop, take};
ghost use Rattle.pptext.specs.Sources.{next_branch, line_tokens};
ghost use Rattle.pptext.specs.Tree.{role};
ghost use Rattle.pptext.specs.IndexedLines.{line_at, IsTextLine};

use crate::sources::{Line, Source};
use crate::tokens::Token;

impl Source {
    /// Returns the number of lines.
    pub fn line_count(&self) -> usize
        ensures { result ≡ length self.now }
    {
        self.lines().len()
    }

    /// Returns the line at `index`, a span of the file's tokens.
    pub fn line(&self, index: usize) -> &Line
        requires { index < length self.now }
        ensures few { length self.now < 2 ^ 64 }
        ensures start { result.now.start ≡ length (line_tokens (take index self.now)) }
        ensures end { result.now.end ≡ result.now.start + length (line_at self.now index).tokens }
        ensures number { result.now.number ≡ (line_at self.now index).number }
        ensures directive { result.now.directive ≡ (line_at self.now index).directive }
        ensures hash { ¬ IsTextLine (line_at self.now index) → result.now.start < result.now.end }
        ensures next { result.now.next_branch ≡ next_branch index (role (line_at self.now index)) (drop (suc index) self.now) }
    {
        &self.lines()[index]
    }

    /// Returns the tokens of the lines from `start` to before `end`.
    pub fn tokens_between(&self, start: usize, end: usize) -> &[Token]
        requires some { start < end }
        requires within { end ≤ length self.now }
        ensures { result.now ≡ line_tokens (take (end - start) (drop start self.now)) }
    {
        &self.tokens()[self.line(start).start..self.line(end - 1).end]
    }

    /// Returns the tokens of the line at `index`.
    pub fn line_tokens(&self, index: usize) -> &[Token]
        requires { index < length self.now }
        ensures { result.now ≡ (line_at self.now index).tokens }
    {
        let line = self.line(index);
        &self.tokens()[line.start..line.end]
    }
}
